// Octets copied in blocks. A copy of up to 64 octets, of 4 or more, is the first block and the last one of a size, a copy of any number blocks of 8
// and a last one; where the last one overlaps what is before it, the same octets are written twice.
ghost use Rattle.std.specs.Prelude.{◌≡◌, ◌+◌, ◌≤◌, length};
ghost use Rattle.octets.specs.Octets.{part, placed};
ghost use Rattle.octets.specs.Outputs.{CopyWithin, Put};

use crate::parts;

// Puts 4 octets of `s` from `from` on into `output` from `at` on. A block's octets are all read before one is written.
fn place_4(s: &[u8], from: usize, output: &mut [u8], at: usize)
    requires { CopyWithin s.now from 4 output.old at }
    ensures { output.new ≡ placed at (part s.now from 4) output.old }
{
    let block = [s[from], s[from + 1], s[from + 2], s[from + 3]];
    parts::place(&block, output, at);
}

// The same of 8 octets.
fn place_8(s: &[u8], from: usize, output: &mut [u8], at: usize)
    requires { CopyWithin s.now from 8 output.old at }
    ensures { output.new ≡ placed at (part s.now from 8) output.old }
{
    let block = [
        s[from],
        s[from + 1],
        s[from + 2],
        s[from + 3],
        s[from + 4],
        s[from + 5],
        s[from + 6],
        s[from + 7],
    ];
    parts::place(&block, output, at);
}

// The same of 16 octets, as two blocks of 8.
fn place_16(s: &[u8], from: usize, output: &mut [u8], at: usize)
    requires { CopyWithin s.now from 16 output.old at }
    ensures { output.new ≡ placed at (part s.now from 16) output.old }
{
    place_8(s, from, output, at);
    place_8(s, from + 8, output, at + 8);
}

// The same of 32 octets, as two blocks of 16.
fn place_32(s: &[u8], from: usize, output: &mut [u8], at: usize)
    requires { CopyWithin s.now from 32 output.old at }
    ensures { output.new ≡ placed at (part s.now from 32) output.old }
{
    place_16(s, from, output, at);
    place_16(s, from + 16, output, at + 16);
}

// Puts all of `s`, which has 4 to 8 octets, into `output` from `at` on: its first 4 and its last 4.
fn place_to_8(s: &[u8], output: &mut [u8], at: usize)
    requires { (4 ≤ length s.now) × ((length s.now ≤ 8) × (at + length s.now ≤ length output.old)) }
    ensures { output.new ≡ placed at s.now output.old }
{
    let last = s.len() - 4;
    place_4(s, 0, output, at);
    place_4(s, last, output, at + last);
}

// The same of 8 to 16 octets: the first 8 and the last 8.
fn place_to_16(s: &[u8], output: &mut [u8], at: usize)
    requires { (8 ≤ length s.now) × ((length s.now ≤ 16) × (at + length s.now ≤ length output.old)) }
    ensures { output.new ≡ placed at s.now output.old }
{
    let last = s.len() - 8;
    place_8(s, 0, output, at);
    place_8(s, last, output, at + last);
}

// The same of 16 to 32 octets: the first 16 and the last 16.
fn place_to_32(s: &[u8], output: &mut [u8], at: usize)
    requires { (16 ≤ length s.now) × ((length s.now ≤ 32) × (at + length s.now ≤ length output.old)) }
    ensures { output.new ≡ placed at s.now output.old }
{
    let last = s.len() - 16;
    place_16(s, 0, output, at);
    place_16(s, last, output, at + last);
}

// The same of 32 to 64 octets: the first 32 and the last 32.
fn place_to_64(s: &[u8], output: &mut [u8], at: usize)
    requires { (32 ≤ length s.now) × ((length s.now ≤ 64) × (at + length s.now ≤ length output.old)) }
    ensures { output.new ≡ placed at s.now output.old }
{
    let last = s.len() - 32;
    place_32(s, 0, output, at);
    place_32(s, last, output, at + last);
}

// The same of 8 to 64 octets.
fn place_from_8(s: &[u8], output: &mut [u8], at: usize)
    requires { (8 ≤ length s.now) × ((length s.now ≤ 64) × (at + length s.now ≤ length output.old)) }
    ensures { output.new ≡ placed at s.now output.old }
{
    if s.len() <= 16 {
        place_to_16(s, output, at);
        return;
    }
    if s.len() <= 32 {
        place_to_32(s, output, at);
        return;
    }
    place_to_64(s, output, at);
}

// Puts all of `s`, which has at most 64 octets, into `output` from `at` on.
pub fn place(s: &[u8], output: &mut [u8], at: usize)
    requires { (length s.now ≤ 64) × (at + length s.now ≤ length output.old) }
    ensures { output.new ≡ placed at s.now output.old }
{
    if 8 <= s.len() {
        place_from_8(s, output, at);
        return;
    }
    if 4 <= s.len() {
        place_to_8(s, output, at);
        return;
    }
    parts::place(s, output, at);
}

// Puts octets of `s` from its front on, in blocks of 8, until at most 8 are left, and answers how many it has put.
fn place_blocks(s: &[u8], output: &mut [u8], at: usize) -> usize
    requires { (8 ≤ length s.now) × (at + length s.now ≤ length output.old) }
    ensures { (length s.now ≤ result + 8) × ((result ≤ length s.now) × (output.new ≡ placed at (part s.now 0 result) output.old)) }
{
    let last = s.len() - 8;
    let mut i = 0;
    while i < last {
        place_8(s, i, output, at + i);
        i += 8;
    }
    i
}

// Puts all of `s`, of any size, into `output` from `at` on, and answers the place just past them.
pub fn place_any(s: &[u8], output: &mut [u8], at: usize) -> usize
    requires { at + length s.now ≤ length output.old }
    ensures { Put at s.now output.old result output.new }
{
    if s.len() < 8 {
        return parts::place(s, output, at);
    }
    place_blocks(s, output, at);
    let last = s.len() - 8;
    place_8(s, last, output, at + last);
    at + s.len()
}
