// The items of a whole list, one after the other, and the fields of each, as parts of the list.
ghost use Rattle.std.specs.Prelude.{◌≡◌, ◌<◌};
ghost use Rattle.lists.specs.LentLists.{item_field};

use crate::field;
use std::marker::Model;

// An item, as the list of its fields.
#[derive(Drop)]
pub struct Item<'a, const FIELDS: usize> {
    // The list from the item on.
    octets: &'a [u8],
}

impl<'a, const FIELDS: usize> Model for Item<'a, FIELDS> {
    ghost use Rattle.std.specs.Prelude.{◌≡◌, true};
    ghost use Rattle.lists.specs.LentLists.{Item, front_item, whole_item};

    ghost Value = { Item };

    ghost view = { λ item. front_item FIELDS item.octets.now };

    ghost invariant = { λ item. whole_item FIELDS item.octets.now ≡ true };
}

impl<'a, const FIELDS: usize> Item<'a, FIELDS> {
    // The octets of field `i`, from 0.
    pub fn field(&self, i: usize) -> &'a [u8]
        requires { i < FIELDS }
        ensures { result.now ≡ item_field i self.now }
    {
        field::front(field::skip(self.octets, i))
    }
}

// The items that are left, as the list of them.
#[derive(Drop)]
pub struct Items<'a, const FIELDS: usize> {
    // The list from the next item on.
    pub(crate) octets: &'a [u8],
    pub(crate) left: usize,
}

impl<'a, const FIELDS: usize> Model for Items<'a, FIELDS> {
    ghost use Rattle.std.specs.Prelude.{◌≡◌, List, true};
    ghost use Rattle.lists.specs.LentLists.{Item, front_items, whole_items};

    ghost Value = { List Item };

    ghost view = { λ items. front_items FIELDS items.left items.octets.now };

    ghost invariant = { λ items. whole_items FIELDS items.left items.octets.now ≡ true };
}

impl<'a, const FIELDS: usize> Items<'a, FIELDS> {
    // The same items once more.
    pub fn again(&self) -> Items<'a, FIELDS>
        ensures { result ≡ self.now }
    {
        Items {
            octets: self.octets,
            left: self.left,
        }
    }
}

impl<'a, const FIELDS: usize> Iterator for Items<'a, FIELDS> {
    ghost use Rattle.std.specs.Iterator.{YieldsFirst, item_count};

    type Item = Item<'a, FIELDS>;

    ghost next_gives = { YieldsFirst (λ items. items) };

    ghost remaining = { item_count (λ items. items) };

    fn next(&mut self) -> Option<Item<'a, FIELDS>> {
        if self.left == 0 {
            return None;
        }
        let item = Item {
            octets: self.octets,
        };
        self.octets = field::skip(self.octets, FIELDS);
        self.left -= 1;
        Some(item)
    }
}
