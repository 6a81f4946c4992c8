// The flow that a match asks about, judged by the sizes of its addresses.
ghost use Rattle.std.specs.Prelude.{◌≡◌};
ghost use Rattle.octets.specs.Numbers.{DONE};
ghost use Rattle.octets.specs.Refusals.{result_number};
ghost use Rattle.matches.specs.Scanning.{sized_fault};

use octets::refusal::Refusal;

// A customer flow, the router of which it is asked, and the prefixes by which its group's class is told.
#[derive(Clone, Copy)]
pub(crate) struct Flow<'a> {
    pub(crate) prefixes: &'a [u8],
    pub(crate) router: &'a [u8],
    pub(crate) source: &'a [u8],
    pub(crate) group: &'a [u8],
}

// FLOW, of a flow whose group has a class: a router's address has an originator's size, and the source has the group's, which is the
// family's. By numbers alone, which costs a match least.
#[tactic(auto, using(octets::proofs::Tests::flags), unfolding(crate::specs::Scanning::sized_fault))]
pub fn check_sizes(router: usize, source: usize, group: usize) -> Result<(), Refusal>
    ensures { result_number result ≡ sized_fault DONE router source group }
{
    if nlri::is_originator_size(router) && source == group {
        return Ok(());
    }
    Err(Refusal::Flow)
}
