// The class of a group, with the prefixes that a caller gives.
ghost use Rattle.std.specs.Prelude.{◌≡◌, ◌*◌};
ghost use Rattle.octets.specs.Outcome.{given, number_of};
ghost use Rattle.octets.specs.Refusals.{result_number};
ghost use Rattle.nlri.specs.Family.{family_bits};
ghost use Rattle.nlri.specs.Groups.{class_outcome};
ghost use Rattle.groups.specs.Classes.{prefixes_under, class_by};

use crate::lent;
use nlri::GroupClass;
use octets::parts::after;
use octets::refusal::Refusal;

// The class of a group. FAMILY, RANGE, SHORT, FLOW. Mostly no prefix is given: that is told first, and all else is a call of its own.
pub fn group_class(afi: u16, prefixes: &[u8], group: &[u8]) -> Result<GroupClass, Refusal>
    ensures { class_outcome result ≡ class_by afi prefixes.now group.now }
{
    if lent::are_none(prefixes) {
        return nlri::group_class(afi, group);
    }
    class_by_prefixes(afi, after(prefixes, 0), after(group, 0))
}

// The same, without the short way for no prefixes, for a caller that reads other lists anyway. FAMILY, RANGE, SHORT, FLOW.
pub fn class_by_prefixes(afi: u16, prefixes: &[u8], group: &[u8]) -> Result<GroupClass, Refusal>
    ensures { class_outcome result ≡ class_by afi prefixes.now group.now }
{
    let kind = nlri::family_of(afi)?;
    class_of_family(afi, kind.octets(), prefixes, group)
}

// The same under a family whose addresses have `size` octets: the prefixes first, then FLOW.
fn class_of_family(
    afi: u16,
    size: usize,
    prefixes: &[u8],
    group: &[u8],
) -> Result<GroupClass, Refusal>
    requires { family_bits afi ≡ given (8 * size) }
    ensures { class_outcome result ≡ class_by afi prefixes.now group.now }
{
    let by_prefixes = lent::class_within(prefixes, size, group)?;
    let standard = nlri::group_class(afi, group)?;
    if lists::count_of(prefixes) == 0 {
        return Ok(standard);
    }
    Ok(by_prefixes)
}

// The prefixes, whatever group they are for: FAMILY, RANGE, SHORT. Any group stands in: none of them tells of it.
pub fn check_prefixes(afi: u16, prefixes: &[u8]) -> Result<(), Refusal>
    ensures { result_number result ≡ number_of (prefixes_under afi prefixes.now) }
{
    let kind = nlri::family_of(afi)?;
    lent::class_within(prefixes, kind.octets(), &[])?;
    Ok(())
}
