// A prefix: its length in bits in one octet, then its address.
ghost use Rattle.std.specs.Prelude.{◌≡◌, true, ◌+◌, ◌*◌, ◌-◌, ◌/◌, ◌%◌, ◌^◌, ◌≤◌, ◌<◌, length, eqb};
ghost use Rattle.groups.specs.Prefixes.{same_bits, clear_bits, good_prefix};
ghost use Rattle.groups.specs.Inner.{holds_sized};

use octets::order::{is_same, is_zero};
use octets::parts::{after, between};

// What an octet is divided by to keep its first bits.
fn past(kept: u32) -> u32
    requires { kept ≤ 8 }
    ensures { result ≡ 2 ^ (8 - kept) }
{
    256u32 >> kept
}

// The first bits of two octets are the same.
fn is_part_same(x: u8, y: u8, kept: u32) -> bool
    requires { kept ≤ 8 }
    ensures { result ≡ eqb (x / 2 ^ (8 - kept)) (y / 2 ^ (8 - kept)) }
{
    let d = past(kept);
    x as u32 / d == y as u32 / d
}

// The bits of an octet past its first ones are clear.
fn is_part_clear(x: u8, kept: u32) -> bool
    requires { kept ≤ 8 }
    ensures { result ≡ eqb (x % 2 ^ (8 - kept)) 0 }
{
    x as u32 % past(kept) == 0
}

// No bit of an address is set past the first `bits`.
fn is_clear_past(address: &[u8], bits: usize) -> bool
    requires { bits ≤ 8 * length address.now }
    ensures { result ≡ clear_bits (8 * length address.now - bits) bits address.now }
{
    let whole = bits / 8;
    if whole == address.len() {
        return true;
    }
    if !is_part_clear(address[whole], (bits % 8) as u32) {
        return false;
    }
    is_zero(after(address, whole + 1))
}

// The first `bits` bits of two addresses are the same: whole octets first, then the bits that are left of one octet.
fn is_begun_alike(a: &[u8], b: &[u8], bits: usize) -> bool
    requires { (bits ≤ 8 * length a.now) × (length a.now ≡ length b.now) }
    ensures { result ≡ same_bits bits a.now b.now }
{
    let whole = bits / 8;
    if !is_same(between(a, 0, whole), between(b, 0, whole)) {
        return false;
    }
    if whole == a.len() {
        return true;
    }
    is_part_same(a[whole], b[whole], (bits % 8) as u32)
}

// A prefix is good: an address of `size` octets, a length that is not over it, and no bit set past the length.
pub(crate) fn is_good(prefix: &[u8], size: usize) -> bool
    ensures { result ≡ good_prefix (8 * size) prefix.now }
{
    if prefix.len() == 0 {
        return false;
    }
    let address = after(prefix, 1);
    if address.len() != size {
        return false;
    }
    let bits = prefix[0] as usize;
    if size < (bits + 7) / 8 {
        return false;
    }
    is_clear_past(address, bits)
}

// A prefix, which is good, holds the group; it holds none of another size.
pub(crate) fn is_held(prefix: &[u8], size: usize, group: &[u8]) -> bool
    requires { good_prefix (8 * size) prefix.now ≡ true }
    ensures { result ≡ holds_sized size prefix.now group.now }
{
    if group.len() != size {
        return false;
    }
    is_begun_alike(after(prefix, 1), group, prefix[0] as usize)
}
