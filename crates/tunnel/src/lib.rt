// The PMSI Tunnel attribute (RFC 6514, section 5; RFC 8556, section 2): read and written (document 01, "PMSI Tunnel attribute").
#![tactic(auto)]

ghost use Rattle.std.specs.Prelude.{◌≡◌, ℕ};
ghost use Rattle.octets.specs.Outcome.{number_of};
ghost use Rattle.octets.specs.Outputs.{Wrote};
ghost use Rattle.octets.specs.Refusals.{result_number, written_by};
ghost use Rattle.tunnel.specs.Attribute.{read_attribute, write_attribute};
ghost use Rattle.tunnel.specs.Answers.{outcome_of, read_struct, argument_fields, write_outcome};

use octets::refusal::Refusal;
use octets::{Span, Written};

mod bier;
mod encoding;
pub mod fec;
mod fields;
mod identifier;
mod sizes;
mod tunnel_type;

pub use bier::{BierIdentifier, bier_in};
pub use tunnel_type::TunnelType;

// Flags 1, tunnel type 1, label field 3: where the label field starts, and where the identifier does.
pub const LABEL_FIELD: usize = 2;

pub const HEADER: usize = 5;

// The most octets of an attribute, and of its identifier.
const MOST: usize = 64;

const MOST_IDENTIFIER: usize = 59;

// The highest number in 24 bits.
const MOST_LABEL_FIELD: u32 = 16777215;

// The fields of an attribute. Spans count from the attribute's first octet.
#[repr(C)]
#[derive(Clone, Copy)]
pub struct Attribute {
    pub flags: u32,
    pub tunnel_type: u32,
    // the whole field of 24 bits
    pub label_field: u32,
    // the field divided by 16
    pub label: u32,
    // 0 or 1: flag bit value 1
    pub leaf_information_required: u32,
    pub identifier: Span,
    // all 0 unless the tunnel type is an mLDP one
    pub fec: fec::Fec,
}

// The first fault of an attribute: LONG, SHORT, TUNNEL or IDENT.
pub fn check(s: &[u8]) -> Result<(), Refusal>
    ensures { result_number result ≡ number_of (read_attribute s.now) }
{
    if MOST < s.len() {
        return Err(Refusal::Long);
    }
    if s.len() < HEADER {
        return Err(Refusal::Short);
    }
    // a part handed on, so that the slice reaches this function in registers
    identifier::check(s[1], &s[HEADER..])
}

// Reads an attribute.
pub fn read(s: &[u8]) -> Result<Attribute, Refusal>
    ensures { outcome_of result ≡ read_struct s.now }
{
    check(s)?;
    Ok(fields::fields(s))
}

// The first fault of what is to be written into `space` octets, whatever the flags are: LONG, TUNNEL, IDENT, LABEL or SPACE.
fn check_writing(
    tunnel_type: u8,
    label_field: u32,
    identifier: &[u8],
    space: usize,
) -> Result<(), Refusal>
    ensures { (flags : ℕ) → result_number result ≡ number_of (write_attribute (argument_fields flags tunnel_type label_field identifier.now) space) }
{
    if MOST_IDENTIFIER < identifier.len() {
        return Err(Refusal::Long);
    }
    identifier::check(tunnel_type, identifier)?;
    if MOST_LABEL_FIELD < label_field {
        return Err(Refusal::Label);
    }
    if space < HEADER + identifier.len() {
        return Err(Refusal::Space);
    }
    Ok(())
}

// Puts an attribute at the front of the output, and answers how many octets it has.
fn put(
    flags: u8,
    tunnel_type: u8,
    label_field: u32,
    identifier: &[u8],
    output: &mut [u8],
) -> Result<usize, Refusal>
    ensures { Wrote (write_outcome flags tunnel_type label_field identifier.now output.old) output.old (written_by result) output.new }
{
    check_writing(tunnel_type, label_field, identifier, output.len())?;
    Ok(encoding::put(flags, tunnel_type, label_field, identifier, output))
}

// Writes an attribute at the front of the output.
pub fn write(
    flags: u8,
    tunnel_type: u8,
    label_field: u32,
    identifier: &[u8],
    output: &mut [u8],
) -> Written
    ensures { Wrote (write_outcome flags tunnel_type label_field identifier.now output.old) output.old result output.new }
{
    Written::from(put(flags, tunnel_type, label_field, identifier, output))
}
