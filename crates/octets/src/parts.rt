// Parts of a slice: cut out to read, filled to write, and cleared.
ghost use Rattle.std.specs.Prelude.{◌≡◌, ◌+◌, ◌≤◌, length, drop};
ghost use Rattle.octets.specs.Octets.{part};
ghost use Rattle.octets.specs.Order.{zeros};
ghost use Rattle.octets.specs.Outputs.{Put};

// The octets from `at` on.
pub fn after(s: &[u8], at: usize) -> &[u8]
    requires { at ≤ length s.now }
    ensures { result.now ≡ drop at s.now }
{
    &s[at..]
}

// `size` octets from `start` on.
pub fn between(s: &[u8], start: usize, size: usize) -> &[u8]
    requires { start + size ≤ length s.now }
    ensures { result.now ≡ part s.now start size }
{
    &s[start..start + size]
}

// Puts all of `octets` into `output` from `at` on, and answers the place just past them.
pub fn place(octets: &[u8], output: &mut [u8], at: usize) -> usize
    requires { at + length octets.now ≤ length output.old }
    ensures { Put at octets.now output.old result output.new }
{
    let end = at + octets.len();
    output[at..end].copy_from_slice(octets);
    end
}

// Every octet becomes 0.
pub fn clear(octets: &mut [u8])
    ensures { octets.new ≡ zeros (length octets.old) }
{
    for octet in octets {
        *octet = 0;
    }
}
