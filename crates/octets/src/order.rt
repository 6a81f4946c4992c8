// Equality and order of octets, and zeros: many octets at once, where there are many. Those left over at the end are looked
// at together with some before them, which are then looked at twice.
//
// `is_same` and `comes_before` only call what does their work: so the compiler writes the comparison itself into their callers.
ghost use Rattle.std.specs.Prelude.{◌≡◌, ◌≤◌, min, length};
ghost use Rattle.octets.specs.Choice.{both};
ghost use Rattle.octets.specs.Order.{same, before, all_zero};

use crate::parts::between;
use crate::wide::{eight, eight_low_first, four_low_first};

// The octets that are compared at once, as one number, and those that are tested for zeros at once. Of n octets, (n - 1) / WORD words
// stand before the last octet; with the word that ends there they leave nothing out.
const WORD: usize = 8;

const BLOCK: usize = 64;

// The same size and octets.
pub fn is_same(a: &[u8], b: &[u8]) -> bool
    ensures { result ≡ same a.now b.now }
{
    is_same_by_words(a, b)
}

// Equality, a word at a time; the last word may begin inside the one before it.
fn is_same_by_words(a: &[u8], b: &[u8]) -> bool
    ensures { result ≡ same a.now b.now }
{
    if a.len() != b.len() {
        return false;
    }
    if a.len() < WORD {
        return is_short_same(a, b);
    }
    for i in 0..(a.len() - 1) / WORD {
        if eight_low_first(a, i * WORD) != eight_low_first(b, i * WORD) {
            return false;
        }
    }
    let last = a.len() - WORD;
    eight_low_first(a, last) == eight_low_first(b, last)
}

// Fewer octets than a word: four, as of an IPv4 address, by one load of each; else one by one, so that no loop is left where the size
// is known.
fn is_short_same(a: &[u8], b: &[u8]) -> bool
    requires { length a.now ≡ length b.now }
    ensures { result ≡ same a.now b.now }
{
    if a.len() == 4 {
        return four_low_first(a, 0) == four_low_first(b, 0);
    }
    for i in 0..a.len() {
        if a[i] != b[i] {
            return false;
        }
    }
    true
}

// The lower octet where they first differ decides; what ends there comes first.
pub fn comes_before(a: &[u8], b: &[u8]) -> bool
    ensures { result ≡ before a.now b.now }
{
    comes_before_by_words(a, b)
}

// The order, a word at a time: the first words that differ decide, as big-endian numbers.
fn comes_before_by_words(a: &[u8], b: &[u8]) -> bool
    ensures { result ≡ before a.now b.now }
{
    let size = a.len().min(b.len());
    if size < WORD {
        return comes_each_before(a, b);
    }
    for i in 0..(size - 1) / WORD {
        let at = i * WORD;
        if eight_low_first(a, at) != eight_low_first(b, at) {
            return eight(a, at) < eight(b, at);
        }
    }
    let last = size - WORD;
    let x = eight(a, last);
    let y = eight(b, last);
    if x != y {
        return x < y;
    }
    a.len() < b.len()
}

// The order, octet by octet.
fn comes_each_before(a: &[u8], b: &[u8]) -> bool
    ensures { result ≡ before a.now b.now }
{
    for i in 0..a.len().min(b.len()) {
        if a[i] != b[i] {
            return a[i] < b[i];
        }
    }
    a.len() < b.len()
}

// The order of octets of one size, at least a word: the first words that differ decide, as big-endian numbers. The last word may
// begin inside the one before it.
pub fn rises(a: &[u8], b: &[u8]) -> bool
    requires { (length a.now ≡ length b.now) × (8 ≤ length b.now) }
    ensures { result ≡ before a.now b.now }
{
    for i in 0..(b.len() - 1) / WORD {
        let at = i * WORD;
        if eight_low_first(a, at) != eight_low_first(b, at) {
            return eight(a, at) < eight(b, at);
        }
    }
    let last = b.len() - WORD;
    eight(a, last) < eight(b, last)
}

// Every octet is zero, block by block; the last block may begin inside the one before it.
pub fn is_zero(s: &[u8]) -> bool
    ensures { result ≡ all_zero s.now }
{
    if s.len() < BLOCK {
        return is_each_zero(s);
    }
    for i in 0..(s.len() - 1) / BLOCK {
        if !is_each_zero(between(s, i * BLOCK, BLOCK)) {
            return false;
        }
    }
    is_each_zero(between(s, s.len() - BLOCK, BLOCK))
}

// Every octet is looked at, with no early exit: so many octets are tested at once.
fn is_each_zero(s: &[u8]) -> bool
    ensures { result ≡ all_zero s.now }
{
    s.iter().fold(0, |any, octet| any | *octet) == 0
}

// Every octet of two slices of one size is zero. Both are looked at in one pass, with no early exit.
pub fn are_each_zero(a: &[u8], b: &[u8]) -> bool
    requires { length a.now ≡ length b.now }
    ensures { result ≡ both (all_zero a.now) (all_zero b.now) }
{
    a.iter().zip(b).fold(0, |any, (x, y)| any | *x | *y) == 0
}
