// Withdraw: TABLE, then its argument, then ABSENT (document 01, "The numbers a call gives back").
ghost use Rattle.std.specs.Prelude.{◌≡◌, true};
ghost use Rattle.octets.specs.Outcome.{number_of};
ghost use Rattle.octets.specs.Refusals.{result_number};
ghost use Rattle.routes.specs.Arguments.{read_s_pmsi};
ghost use Rattle.routes.specs.Table.{afi_in, sound_of};
ghost use Rattle.routes.specs.Calls.{withdraw_of};
ghost use Rattle.octets.specs.Outputs.{Leaves};

use changes::{change, find};
use octets::refusal;
use octets::refusal::Refusal;
use places::{header, judge, sound};

// A well-formed S-PMSI NLRI, taken out where it stands: ABSENT.
fn leave(table: &mut [u8], nlri: &[u8]) -> Result<(), Refusal>
    requires table_value { sound_of table.old ≡ true }
    requires nlri_value { number_of (read_s_pmsi (afi_in table.old) nlri.now) ≡ 0 }
    ensures { Leaves (withdraw_of table.old nlri.now) (result_number result) table.new }
{
    match find::search(table, nlri) {
        Ok(index) => {
            let count = header::count_of(table);
            change::remove(table, index, count);
            Ok(())
        }
        Err(_) => Err(Refusal::Absent),
    }
}

// TABLE, the argument's refusals, then the route taken out.
fn try_withdraw(table: &mut [u8], nlri: &[u8]) -> Result<(), Refusal>
    ensures { Leaves (withdraw_of table.old nlri.now) (result_number result) table.new }
{
    if !sound::is_sound(table) {
        return Err(Refusal::Table);
    }
    judge::check_s_pmsi(header::afi_of(table), nlri)?;
    leave(table, nlri)
}

// Takes the route of an NLRI out. A refusal leaves every octet as it was.
pub fn withdraw(table: &mut [u8], nlri: &[u8]) -> u32
    ensures { Leaves (withdraw_of table.old nlri.now) result table.new }
{
    refusal::number_of(try_withdraw(table, nlri))
}
