// What a table says of itself.
ghost use Rattle.std.specs.Prelude.{◌≡◌};
ghost use Rattle.routes.specs.Info.{facts_by, info_of};

use octets::refusal::Refusal;
use places::{header, sound};
use routes::{TableContents, TableFacts};

// TABLE, then what the header and the memory's size say.
fn try_info(table: &[u8]) -> Result<TableContents, Refusal>
    ensures { facts_by result ≡ info_of table.now }
{
    if !sound::is_sound(table) {
        return Err(Refusal::Table);
    }
    Ok(TableContents {
        afi: header::afi_of(table) as u32,
        places: header::places_of(table) as u32,
        routes: header::count_of(table) as u32,
    })
}

// The family, the places that the memory has, and how many routes are in them: TABLE.
pub fn info(table: &[u8]) -> TableFacts
    ensures { result ≡ info_of table.now }
{
    TableFacts::from(try_info(table))
}
