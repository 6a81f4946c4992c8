// Lists that a caller lends: their count, whether they are whole, their items one after the other, and an item's fields as parts of the
// list, so that no octet is copied. Neither installed nor exported to C, so its helpers may have a `requires`: a call asks
// `count_of` and `is_whole` before it looks at items.
#![tactic(auto)]

ghost use Rattle.std.specs.Prelude.{◌≡◌, true, ◌+◌, ◌^◌, ◌<◌, length, drop};
ghost use Rattle.lists.specs.LentLists.{item_field, front_item, after_item, whole_item, list_count, whole_list, list_items};

mod field;
pub mod item;

use item::Items;
use octets::parts::after;
use octets::wide::two;

// Where the first item starts: after the count.
pub const FIRST: usize = 2;

// How many items the list says that it has; 0 where it is shorter than its count.
pub fn count_of(list: &[u8]) -> usize
    ensures value { result ≡ list_count list.now }
    ensures upper_bound { result < 2 ^ 16 }
{
    if list.len() < FIRST {
        return 0;
    }
    two(list, 0) as usize
}

// The list holds its count, and all its items, of so many fields each: fields that stand one after the other.
#[tactic(auto, using(crate::proofs::Walks::walks))]
pub fn is_whole(list: &[u8], fields: usize) -> bool
    requires { fields < 2 ^ 16 }
    ensures { result ≡ whole_list fields list.now }
{
    if list.len() < FIRST {
        return false;
    }
    let mut rest = after(list, FIRST);
    for _ in 0..count_of(list) * fields {
        if !field::is_whole(rest) {
            return false;
        }
        rest = field::after(rest);
    }
    true
}

// The items of a list that `is_whole` has accepted.
pub fn items_of<const FIELDS: usize>(list: &[u8]) -> Items<'_, FIELDS>
    requires { whole_list FIELDS list.now ≡ true }
    ensures value { result ≡ list_items FIELDS list.now }
    ensures upper_bound { length result < 2 ^ 16 }
{
    Items {
        octets: after(list, FIRST),
        left: count_of(list),
    }
}

// Where what follows the item at `at` starts, for a caller that counts where an item stands: the next item, if there is one.
#[tactic(auto, using(crate::proofs::Walks::walks))]
pub fn after_item(list: &[u8], at: usize, fields: usize) -> usize
    requires { whole_item fields (drop at list.now) ≡ true }
    ensures { drop result list.now ≡ after_item fields (drop at list.now) }
{
    let mut next = at;
    for _ in 0..fields {
        next += 2 + two(list, next) as usize;
    }
    next
}

// The octets of field `i`, from 0, of the item at `at`, for such a caller.
pub fn item_field(list: &[u8], at: usize, i: usize) -> &[u8]
    requires { whole_item (i + 1) (drop at list.now) ≡ true }
    ensures { result.now ≡ item_field i (front_item (i + 1) (drop at list.now)) }
{
    field::front(field::skip(after(list, at), i))
}
