// The mLDP FEC element that an identifier may be, as an answer tells it.
ghost use Rattle.std.specs.Prelude.{◌≡◌, true, ◌+◌, ◌≤◌, length, get_or};
ghost use Rattle.fec_elements.specs.Reading.{fec_in, whole_fec};
ghost use Rattle.tunnel.specs.Answers.{fec_spans, no_fec};

use octets::Span;

// A FEC's type and address family, and where in the attribute its root address and its opaque value stand.
#[repr(C)]
#[derive(Clone, Copy)]
pub struct Fec {
    pub fec_type: u32,
    pub address_family: u32,
    pub root: Span,
    pub opaque: Span,
}

impl Fec {
    // No FEC: every number 0.
    pub fn none() -> Fec
        ensures { result ≡ no_fec }
    {
        Fec {
            fec_type: 0,
            address_family: 0,
            root: Span { start: 0, size: 0 },
            opaque: Span { start: 0, size: 0 },
        }
    }
}

// The FEC that an identifier is, placed in its attribute: the root straight after the attribute's header of 5 octets and
// the FEC's of 4, the opaque value after the root and the 2 octets of the opaque length.
pub(crate) fn spans(identifier: &[u8]) -> Fec
    requires { (whole_fec identifier.now ≡ true) × (6 + get_or identifier.now 3 0 ≤ length identifier.now) }
    ensures { result ≡ fec_spans (fec_in identifier.now) }
{
    let size = identifier[3] as usize;
    Fec {
        fec_type: identifier[0] as u32,
        address_family: octets::wide::two(identifier, 1),
        root: Span { start: 9, size },
        opaque: Span {
            start: 11 + size,
            size: identifier.len() - 6 - size,
        },
    }
}
