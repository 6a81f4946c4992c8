// Numbers of several octets: in network order, and the least significant octet first, as the machine has them, to tell octets apart
// by one load and one test.
ghost use Rattle.std.specs.Prelude.{◌≡◌, ◌+◌, ◌^◌, ◌<◌, ◌≤◌, length};
ghost use Rattle.octets.specs.Octets.{part, number_in, low_first, big_endian};
ghost use Rattle.octets.specs.Outputs.{Put};

// The number in two octets from `at` on.
pub fn two(s: &[u8], at: usize) -> u32
    requires { at + 2 ≤ length s.now }
    ensures value { result ≡ number_in (part s.now at 2) 0 }
    ensures upper_bound { result < 2 ^ 16 }
{
    s[at] as u32 * 256 + s[at + 1] as u32
}

// The number in three octets from `at` on.
pub fn three(s: &[u8], at: usize) -> u32
    requires { at + 3 ≤ length s.now }
    ensures value { result ≡ number_in (part s.now at 3) 0 }
    ensures upper_bound { result < 2 ^ 24 }
{
    two(s, at) * 256 + s[at + 2] as u32
}

// The number in four octets from `at` on.
pub fn four(s: &[u8], at: usize) -> u32
    requires { at + 4 ≤ length s.now }
    ensures { result ≡ number_in (part s.now at 4) 0 }
{
    three(s, at) * 256 + s[at + 3] as u32
}

// The number in eight octets from `at` on.
pub fn eight(s: &[u8], at: usize) -> u64
    requires { at + 8 ≤ length s.now }
    ensures { result ≡ number_in (part s.now at 8) 0 }
{
    four(s, at) as u64 * 4294967296 + four(s, at + 4) as u64
}

// The number in two octets from `at` on, the least significant first.
pub fn two_low_first(s: &[u8], at: usize) -> u32
    requires { at + 2 ≤ length s.now }
    ensures { (result ≡ low_first (part s.now at 2)) × (result < 2 ^ 16) }
{
    s[at] as u32 + s[at + 1] as u32 * 256
}

// The number in four octets from `at` on, the least significant first.
pub fn four_low_first(s: &[u8], at: usize) -> u32
    requires { at + 4 ≤ length s.now }
    ensures { result ≡ low_first (part s.now at 4) }
{
    two_low_first(s, at) + two_low_first(s, at + 2) * 65536
}

// The number in eight octets from `at` on, the least significant first: one load.
pub fn eight_low_first(s: &[u8], at: usize) -> u64
    requires { at + 8 ≤ length s.now }
    ensures { result ≡ low_first (part s.now at 8) }
{
    four_low_first(s, at) as u64 + four_low_first(s, at + 4) as u64 * 4294967296
}

// Puts the last three octets of a number into `output` from `at` on, and answers the place just past them.
pub fn place_three(x: u32, output: &mut [u8], at: usize) -> usize
    requires { at + 3 ≤ length output.old }
    ensures { Put at (big_endian 3 x) output.old result output.new }
{
    let octets = [
        (x / 256 / 256 % 256) as u8,
        (x / 256 % 256) as u8,
        (x % 256) as u8,
    ];
    crate::parts::place(&octets, output, at)
}

// Puts the four octets of a number into `output` from `at` on, and answers the place just past them.
pub fn place_four(x: u32, output: &mut [u8], at: usize) -> usize
    requires { at + 4 ≤ length output.old }
    ensures { Put at (big_endian 4 x) output.old result output.new }
{
    let next = place_three(x / 256, output, at);
    let octets = [(x % 256) as u8];
    crate::parts::place(&octets, output, next)
}
