// An attribute put into an output that has room for it.
ghost use Rattle.std.specs.Prelude.{◌∷◌, ◌+◌, ◌≤◌, length};
ghost use Rattle.octets.specs.Octets.{big_endian};
ghost use Rattle.octets.specs.Outputs.{Put};
ghost use Rattle.tunnel.specs.Attribute.{encode_attribute};
ghost use Rattle.tunnel.specs.Answers.{argument_fields};

// The five octets before the identifier. Answers the place just past them.
fn put_header(flags: u8, tunnel_type: u8, label_field: u32, output: &mut [u8]) -> usize
    requires { 5 ≤ length output.old }
    ensures { Put 0 (flags ∷ (tunnel_type ∷ big_endian 3 label_field)) output.old result output.new }
{
    let first_two = [flags, tunnel_type];
    let next = octets::parts::place(&first_two, output, 0);
    octets::wide::place_three(label_field, output, next)
}

// The whole attribute, at the front. Answers the place just past it.
pub(crate) fn put(
    flags: u8,
    tunnel_type: u8,
    label_field: u32,
    identifier: &[u8],
    output: &mut [u8],
) -> usize
    requires { (length identifier.now ≤ 59) × (5 + length identifier.now ≤ length output.old) }
    ensures { Put 0 (encode_attribute (argument_fields flags tunnel_type label_field identifier.now)) output.old result output.new }
{
    let next = put_header(flags, tunnel_type, label_field, output);
    octets::blocks::place(identifier, output, next);
    next + identifier.len()
}
