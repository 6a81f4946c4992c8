// A table made in lent memory.
ghost use Rattle.octets.specs.Outputs.{Leaves};
ghost use Rattle.octets.specs.Refusals.{result_number};
ghost use Rattle.routes.specs.Calls.{make_of};

use changes::change;
use octets::refusal;
use octets::refusal::Refusal;
use places::{header, sound};

// FAMILY, TABLE, then every octet is written.
fn try_make(afi: u16, table: &mut [u8]) -> Result<(), Refusal>
    ensures { Leaves (make_of afi table.old) (result_number result) table.new }
{
    if !header::is_family(afi) {
        return Err(Refusal::Family);
    }
    if !sound::is_table_size(table.len()) {
        return Err(Refusal::Table);
    }
    change::clear_places(table);
    header::write_header(afi, 0, table);
    Ok(())
}

// Makes a table of no routes in all of the memory: FAMILY, TABLE. A refusal leaves every octet as it was.
pub fn make(afi: u16, table: &mut [u8]) -> u32
    ensures { Leaves (make_of afi table.old) result table.new }
{
    refusal::number_of(try_make(afi, table))
}
