// The fields of an item, from the first octets of a slice on: each is its size in two octets, and so many octets.
#![tactic(auto, using(crate::proofs::Fields::fields))]

ghost use Rattle.std.specs.Prelude.{◌≡◌, true};
ghost use Rattle.lists.specs.LentLists.{front_field, after_field, whole_field, after_item, whole_item};

use octets::parts;
use octets::wide::two;

// The first field does not run past the end.
pub(crate) fn is_whole(s: &[u8]) -> bool
    ensures { result ≡ whole_field s.now }
{
    if s.len() < 2 {
        return false;
    }
    two(s, 0) as usize <= s.len() - 2
}

// The octets of the first field.
pub(crate) fn front(s: &[u8]) -> &[u8]
    requires { whole_field s.now ≡ true }
    ensures { result.now ≡ front_field s.now }
{
    parts::between(s, 2, two(s, 0) as usize)
}

// What follows it.
pub(crate) fn after(s: &[u8]) -> &[u8]
    requires { whole_field s.now ≡ true }
    ensures { result.now ≡ after_field s.now }
{
    parts::after(s, 2 + two(s, 0) as usize)
}

// What follows so many fields.
#[tactic(auto, using(crate::proofs::Walks::walks))]
pub(crate) fn skip(s: &[u8], fields: usize) -> &[u8]
    requires { whole_item fields s.now ≡ true }
    ensures { result.now ≡ after_item fields s.now }
{
    let mut rest = s;
    for _ in 0..fields {
        rest = after(rest);
    }
    rest
}
