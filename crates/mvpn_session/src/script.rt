// The script as it is read, and the fields of a line: octets in hexadecimal, two digits each.
ghost use Rattle.std.specs.Prelude.{◌+◌, ◌<◌, ◌≤◌, length, IfSome};
ghost use Rattle.std.specs.Io.{ReadsAtMost};

use std::io::{self, Read};

// The most octets of a field.
pub(crate) const FIELD: usize = 80;

// Reads until `script` is full or the input ends, and answers how many octets came.
pub(crate) fn read<R: Read>(from: &mut R, script: &mut [u8]) -> io::Result<usize>
    ensures { ReadsAtMost result script.new }
{
    let mut size = 0;
    while size < script.len() {
        let count = from.read(&mut script[size..])?;
        if count == 0 {
            return Ok(size);
        }
        size += count;
    }
    Ok(size)
}

// The value of a hexadecimal digit in lower case.
fn digit(c: u8) -> Option<u8>
    ensures { IfSome result (λ value. value < 16) }
{
    match c {
        b'0'..=b'9' => Some(c - b'0'),
        b'a'..=b'f' => Some(c - b'a' + 10),
        _ => None,
    }
}

// The octet that two digits stand for.
fn octet(digits: &[u8]) -> Option<u8> {
    let [high, low] = digits else {
        return None;
    };
    Some(digit(*high)? * 16 + digit(*low)?)
}

// The octets whose digits the text begins with, as many as fit.
pub(crate) fn decode<'a>(text: &[u8], field: &'a mut [u8]) -> &'a [u8]
    ensures { length result.now ≤ length field.old }
{
    let mut pairs = text.chunks_exact(2);
    for size in 0..field.len() {
        let Some(value) = pairs.next().and_then(octet) else {
            return &field[..size];
        };
        field[size] = value;
    }
    field
}

// What follows the first octet `c`; nothing where there is none.
pub(crate) fn after(text: &[u8], c: u8) -> &[u8]
    ensures shorter { 0 < length text.now → length result.now < length text.now }
    ensures upper_bound { length result.now ≤ length text.now }
{
    match text.iter().position(|octet| *octet == c) {
        Some(at) => &text[at + 1..],
        None => &[],
    }
}
