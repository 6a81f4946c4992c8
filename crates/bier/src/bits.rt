// Strings of 256 bits, in 32 octets: the bits of BFR-ids are set, and ones are counted over words.
ghost use Rattle.std.specs.Prelude.{◌≡◌, ◌+◌, ◌≤◌, length};
ghost use Rattle.octets.specs.Octets.{part};
ghost use Rattle.bier.specs.BitStrings.{is_of_set, with_bit, with_id, ones_of};

use octets::wide;

// The octets of a string.
pub(crate) const OCTETS: usize = 32;

// A BFR-id has its bit in the string of a set.
#[tactic(auto, using(octets::proofs::Tests::tests), unfolding(crate::specs::BitStrings::is_of_set, crate::specs::BitStrings::set_of))]
fn is_of_set(set: u8, id: u32) -> bool
    ensures { result ≡ is_of_set set id }
{
    id != 0 && (id - 1) / 256 == u32::from(set)
}

// Sets the bit at a position: position 1 is the lowest bit of the last octet.
fn set_bit(string: &mut [u8; 32], position: usize)
    requires { (1 ≤ position) × (position ≤ 256) }
    ensures { string.new ≡ with_bit string.old position }
{
    let at = OCTETS - 1 - (position - 1) / 8;
    string[at] |= 1u8 << ((position - 1) % 8);
}

// Sets the bit of a BFR-id that is of the set.
#[tactic(auto, using(crate::proofs::Functions::adding), unfolding(crate::specs::BitStrings::with_id, crate::specs::BitStrings::position_of))]
pub(crate) fn add(string: &mut [u8; 32], set: u8, id: u32)
    ensures { string.new ≡ with_id set string.old id }
{
    if is_of_set(set, id) {
        set_bit(string, ((id - 1) % 256 + 1) as usize);
    }
}

// The ones of a word, eight octets from `at` on, whatever their order in it.
fn ones_at(s: &[u8], at: usize) -> u32
    requires { at + 8 ≤ length s.now }
    ensures { (result ≡ ones_of (part s.now at 8)) × (result ≤ 64) }
{
    u64::count_ones(wide::eight_low_first(s, at))
}

// The ones of a string: those of its four words.
pub(crate) fn ones(string: &[u8; 32]) -> u32
    ensures { result ≡ ones_of string.now }
{
    ones_at(string, 0) + ones_at(string, 8) + ones_at(string, 16) + ones_at(string, 24)
}
