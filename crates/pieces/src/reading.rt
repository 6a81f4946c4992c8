// The NLRI that is unfinished: how many octets it wants, and what it is when it is whole.
ghost use Rattle.std.specs.Prelude.{◌≡◌, ◌+◌, ◌-◌, ◌≤◌, length, take};
ghost use Rattle.octets.specs.Octets.{placed};
ghost use Rattle.octets.specs.Refusals.{result_number};
ghost use Rattle.nlri.specs.Family.{family_bits, family_outcome};
ghost use Rattle.pieces.specs.Feeding.{wanted_of, share_of, number_under};

use nlri::{AddressKind, HEADER};
use octets::refusal::Refusal;

// The octets of the longest NLRI: its header and a Length of 255.
pub const UNFINISHED: usize = 257;

// The octets that a caller lends a reader.
pub type UnfinishedNlri = [u8; UNFINISHED];

// The octets of the NLRI that the kept octets and the piece begin.
pub(crate) fn wanted(unfinished: &[u8], kept: usize, piece: &[u8]) -> usize
    requires { (length unfinished.now ≡ 257) × (kept ≤ 256) × (length piece.now ≤ 4096) }
    ensures { (result ≡ wanted_of kept unfinished.now piece.now) × (result ≤ 257) }
{
    if kept + piece.len() < HEADER {
        return HEADER;
    }
    if kept < HEADER {
        return HEADER + piece[1 - kept] as usize;
    }
    HEADER + unfinished[1] as usize
}

// The octets of a piece of `size` octets that belong to that NLRI.
pub(crate) fn share(wanted: usize, kept: usize, size: usize) -> usize
    requires { (wanted ≤ 257) × (kept ≤ 256) × (size ≤ 4096) }
    ensures { (result ≡ share_of wanted kept size) × (result ≤ size) × (kept + result ≤ 257) }
{
    wanted.saturating_sub(kept).min(size)
}

// Keeps the first octets of a piece behind those kept before.
pub(crate) fn keep(unfinished: &mut [u8], kept: usize, piece: &[u8], share: usize)
    requires { (share ≤ length piece.now) × (kept + share ≤ length unfinished.old) }
    ensures { unfinished.new ≡ placed kept (take share piece.now) unfinished.old }
{
    octets::parts::place(octets::parts::between(piece, 0, share), unfinished, kept);
}

// Judges the NLRI at the front of `s`.
pub(crate) fn check(afi: u32, s: &[u8]) -> Result<(), Refusal>
    ensures { result_number result ≡ number_under afi s.now }
{
    let kind = family_in(afi)?;
    nlri::check_front(kind, s)
}

// The family of a state's AFI, which no call made if it is over 16 bits.
fn family_in(afi: u32) -> Result<AddressKind, Refusal>
    ensures { family_outcome result ≡ family_bits afi }
{
    let Ok(afi) = u16::try_from(afi) else {
        return Err(Refusal::Family);
    };
    nlri::family_of(afi)
}
