// The prefixes in a lent list.
ghost use Rattle.std.specs.Prelude.{◌≡◌};
ghost use Rattle.nlri.specs.Groups.{ASM, class_outcome};
ghost use Rattle.groups.specs.Inner.{none_given, class_along, class_within};

use crate::prefix;
use lists::item::Items;
use nlri::GroupClass;
use octets::refusal::Refusal;

const FIELDS: usize = 1;

const MOST_PREFIXES: usize = 8;

// No prefix is given.
pub(crate) fn are_none(prefixes: &[u8]) -> bool
    ensures { result ≡ none_given prefixes.now }
{
    2 <= prefixes.len() && lists::count_of(prefixes) == 0
}

// The class of a group by prefixes for addresses of `size` octets: RANGE for more than eight, SHORT, then each of them.
pub(crate) fn class_within(
    prefixes: &[u8],
    size: usize,
    group: &[u8],
) -> Result<GroupClass, Refusal>
    ensures { class_outcome result ≡ class_within size prefixes.now group.now }
{
    if MOST_PREFIXES < lists::count_of(prefixes) {
        return Err(Refusal::Range);
    }
    if !lists::is_whole(prefixes, FIELDS) {
        return Err(Refusal::Short);
    }
    class_along(lists::items_of(prefixes), size, group)
}

// Each prefix in turn: RANGE for one that is not good, SSM where one holds the group, else ASM.
fn class_along(
    prefixes: Items<'_, FIELDS>,
    size: usize,
    group: &[u8],
) -> Result<GroupClass, Refusal>
    ensures { class_outcome result ≡ class_along size group.now ASM prefixes.entry }
{
    let mut class = GroupClass::Asm;
    for item in prefixes {
        let prefix = item.field(0);
        if !prefix::is_good(prefix, size) {
            return Err(Refusal::Range);
        }
        if prefix::is_held(prefix, size, group) {
            class = GroupClass::Ssm;
        }
    }
    Ok(class)
}
