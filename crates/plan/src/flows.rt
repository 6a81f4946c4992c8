// The flows of a lent list, where they lie.
ghost use Rattle.std.specs.Prelude.{◌≡◌, true, not};
ghost use Rattle.octets.specs.Choice.{both};
ghost use Rattle.octets.specs.Order.{same};
ghost use Rattle.lists.specs.LentLists.{whole_list, list_items};
ghost use Rattle.plan.specs.Flows.{flows_in, same_flow, is_listed};
ghost use Rattle.plan.specs.Commonest.{is_wanted};
ghost use Rattle.plan.specs.Refusing.{clashes};

use crate::FIELDS;
use lists::item::{Item, Items};
use octets::order;
use std::marker::Model;

// A flow, seen as its source, its group and the attribute wanted for it.
#[derive(Drop)]
pub struct Flow<'a> {
    item: Item<'a, FIELDS>,
}

impl<'a> Model for Flow<'a> {
    ghost use Rattle.plan.specs.Flows.{ListedFlow, flow_in};

    ghost Value = { ListedFlow };

    ghost view = { λ flow. flow_in flow.item };
}

#[tactic(auto, unfolding(crate::specs::Flows::flow_in))]
impl<'a> Flow<'a> {
    pub(crate) fn source(&self) -> &'a [u8]
        ensures { result.now ≡ self.now.source }
    {
        self.item.field(0)
    }

    pub(crate) fn group(&self) -> &'a [u8]
        ensures { result.now ≡ self.now.group }
    {
        self.item.field(1)
    }

    // The attribute wanted for it.
    pub(crate) fn wanted(&self) -> &'a [u8]
        ensures { result.now ≡ self.now.wanted }
    {
        self.item.field(2)
    }
}

impl<'a> Flow<'a> {
    // One flow: the same source and group.
    #[tactic(auto, unfolding(crate::specs::Flows::same_flow))]
    fn is_same(&self, other: &Flow<'_>) -> bool
        ensures { result ≡ same_flow self.now other.now }
    {
        order::is_same(self.source(), other.source()) && order::is_same(self.group(), other.group())
    }

    // It wants an attribute.
    pub(crate) fn wants(&self, wanted: &[u8]) -> bool
        ensures { result ≡ same self.now.wanted wanted.now }
    {
        order::is_same(self.wanted(), wanted)
    }

    // One flow with two attributes.
    fn clashes_with(&self, other: &Flow<'_>) -> bool
        ensures { result ≡ both (same_flow self.now other.now) (not (same self.now.wanted other.now.wanted)) }
    {
        self.is_same(other) && !self.wants(other.wanted())
    }
}

// The flows of a list that are left.
#[derive(Drop)]
pub struct Flows<'a> {
    items: Items<'a, FIELDS>,
}

impl<'a> Model for Flows<'a> {
    ghost use Rattle.std.specs.Prelude.{List};
    ghost use Rattle.plan.specs.Flows.{ListedFlow, flows_in};

    ghost Value = { List ListedFlow };

    ghost view = { λ flows. flows_in flows.items };
}

impl<'a> Flows<'a> {
    // The flows of a whole list.
    pub(crate) fn of(list: &'a [u8]) -> Flows<'a>
        requires { whole_list 3 list.now ≡ true }
        ensures { result ≡ flows_in (list_items 3 list.now) }
    {
        Flows {
            items: lists::items_of(list),
        }
    }

    // The same flows once more.
    pub(crate) fn again(&self) -> Flows<'a>
        ensures { result ≡ self.now }
    {
        Flows {
            items: self.items.again(),
        }
    }

    // One of them is this flow.
    pub(crate) fn have(&mut self, flow: &Flow<'_>) -> bool
        ensures { result ≡ is_listed flow.now self.old }
    {
        self.any(|other| flow.is_same(&other))
    }

    // One of them wants an attribute.
    pub(crate) fn want(&mut self, wanted: &[u8]) -> bool
        ensures { result ≡ is_wanted wanted.now self.old }
    {
        self.any(|flow| flow.wants(wanted))
    }

    // One of them is this flow with another attribute.
    pub(crate) fn clash_with(&mut self, flow: &Flow<'_>) -> bool
        ensures { result ≡ clashes flow.now self.old }
    {
        self.any(|other| flow.clashes_with(&other))
    }
}

impl<'a> Iterator for Flows<'a> {
    ghost use Rattle.std.specs.Iterator.{YieldsFirst, item_count};

    type Item = Flow<'a>;

    ghost next_gives = { YieldsFirst (λ flows. flows) };

    ghost remaining = { item_count (λ flows. flows) };

    #[tactic(auto, unfolding(crate::specs::Flows::flows_in))]
    fn next(&mut self) -> Option<Flow<'a>> {
        let item = self.items.next()?;
        Some(Flow { item })
    }
}
