// The table memory's header: "MVT", version, AFI and count, big-endian (document 01, "The table memory").
ghost use Rattle.std.specs.Prelude.{◌≡◌, ◌++◌, ◌≤◌, ◌<◌, length, drop, eqb};
ghost use Rattle.octets.specs.Choice.{either};
ghost use Rattle.routes.specs.Table.{header_start, header_of, header_sound, afi_in, count_in, places_in};

use crate::geometry::{AFI, COUNT, HEADER, PLACE};
use nlri::AddressFamily;

const VERSION: u8 = 1;

// The header before the count, by the AFI's octet.
#[tactic(auto, unfolding(routes::specs::Table::header_start))]
fn start_of(afi: u8) -> [u8; COUNT]
    ensures { result ≡ header_start afi }
{
    [b'M', b'V', b'T', 0, VERSION, afi]
}

// Writes the header, the count as the last two octets of its number; the places stay as they are.
pub fn write_header(afi: u16, count: usize, table: &mut [u8])
    requires { (afi < 256) × (8 ≤ length table.old) }
    ensures { table.new ≡ header_of afi count ++ drop 8 table.old }
{
    octets::parts::place(&start_of(afi as u8), table, 0);
    octets::parts::place(&count.to_be_bytes()[6..], table, COUNT);
}

// An AFI that a table can have: 1 or 2.
pub fn is_family(afi: u16) -> bool
    ensures { result ≡ either (eqb afi 1) (eqb afi 2) }
{
    AddressFamily::try_from(afi).is_ok()
}

// A good header: "MVT", the version and an AFI.
pub(crate) fn is_header_sound(table: &[u8]) -> bool
    requires { 8 ≤ length table.now }
    ensures { result ≡ header_sound table.now }
{
    let start = start_of(table[AFI]);
    octets::order::is_same(octets::parts::between(table, 0, COUNT), &start)
        && is_family(table[AFI] as u16)
}

// The AFI in the header.
#[tactic(auto, unfolding(routes::specs::Table::afi_in))]
pub fn afi_of(table: &[u8]) -> u16
    requires { 8 ≤ length table.now }
    ensures { (result ≡ afi_in table.now) × (result < 256) }
{
    table[AFI] as u16
}

// The count in the header: how many places are taken.
#[tactic(auto, unfolding(routes::specs::Table::count_in))]
pub fn count_of(table: &[u8]) -> usize
    requires { 8 ≤ length table.now }
    ensures { (result ≡ count_in table.now) × (result < 65536) }
{
    octets::wide::two(table, COUNT) as usize
}

// How many places the memory has behind the header, taken or not.
#[tactic(auto, unfolding(routes::specs::Table::places_in))]
pub fn places_of(table: &[u8]) -> usize
    requires { 8 ≤ length table.now }
    ensures { result ≡ places_in table.now }
{
    (table.len() - HEADER) / PLACE
}
