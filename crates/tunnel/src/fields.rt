// The fields of an attribute, taken from where they stand.
#![tactic(auto, unfolding(crate::specs::Answers::attribute_struct, crate::specs::Attribute::fields_in, crate::specs::Attribute::label_of, crate::specs::Attribute::leaf_information_required))]

ghost use Rattle.std.specs.Prelude.{◌≡◌, ◌≤◌, length, get_or, drop};
ghost use Rattle.octets.specs.Numbers.{DONE};
ghost use Rattle.octets.specs.Outcome.{number_of};
ghost use Rattle.tunnel.specs.Identifier.{read_identifier};
ghost use Rattle.tunnel.specs.Attribute.{fields_in};
ghost use Rattle.tunnel.specs.Answers.{attribute_struct, fec_answer};

use crate::Attribute;
use crate::fec::Fec;
use crate::tunnel_type::TunnelType;
use octets::Span;

// The FEC of an mLDP tunnel type; all 0 for any other.
fn fec_of(s: &[u8]) -> Fec
    requires in_bounds { 5 ≤ length s.now }
    requires s_value { number_of (read_identifier (get_or s.now 1 0) (drop 5 s.now)) ≡ DONE }
    ensures { result ≡ fec_answer (fields_in s.now) }
{
    match TunnelType::try_from(s[1]) {
        Ok(tunnel_type) if tunnel_type.is_mldp() => {
            crate::fec::spans(octets::parts::after(s, crate::HEADER))
        }
        _ => Fec::none(),
    }
}

// All the fields of an attribute whose identifier has no fault.
pub(crate) fn fields(s: &[u8]) -> Attribute
    requires in_bounds { 5 ≤ length s.now }
    requires s_value { number_of (read_identifier (get_or s.now 1 0) (drop 5 s.now)) ≡ DONE }
    ensures { result ≡ attribute_struct (fields_in s.now) }
{
    let label_field = octets::wide::three(s, crate::LABEL_FIELD);
    let fec = fec_of(s);
    let flags = s[0] as u32;
    let tunnel_type = s[1] as u32;
    let size = s.len() - crate::HEADER;
    Attribute {
        flags,
        tunnel_type,
        label_field,
        label: label_field / 16,
        leaf_information_required: flags % 2,
        identifier: Span {
            start: crate::HEADER,
            size,
        },
        fec,
    }
}
