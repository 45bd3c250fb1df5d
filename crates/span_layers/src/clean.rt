//! Which bytes of a text the compact form escapes, asked of many bytes at once.
//!
//! The method is that of copies of short lengths: a stretch of N to 2 N bytes is covered by its first N and its last N,
//! which may share some. So two tests of one width serve many lengths, and few bytes are left to a loop.
ghost use Rattle.std.specs.Prelude.{◌≡◌, ◌+◌, ◌*◌, ◌≤◌, length, nat_eq};
ghost use Rattle.std.specs.Bool.{OnTrue};
ghost use Rattle.span_layers.specs.Text.{escaped};
ghost use Rattle.span_layers.specs.inside.Clean.{IsCleanIn};

use std::simd::prelude::*;

/// Whether the compact form writes the text as it is.
#[inline(always)]
pub(crate) fn is_clean(text: &[u8]) -> bool
    ensures { OnTrue result (escaped text.now ≡ text.now) }
{
    has_no_escapes(text)
}

// Whether none of its bytes is escaped.
#[inline(always)]
fn has_no_escapes(text: &[u8]) -> bool
    ensures { OnTrue result (IsCleanIn text.now 0 (length text.now)) }
{
    let end = text.len();
    let mut start = 0;
    while end - start > 64 {
        if !are_ends_clean::<32>(text, start, start + 64) {
            return false;
        }
        start += 64;
    }
    match end - start {
        32..=64 => are_ends_clean::<32>(text, start, end),
        16..32 => are_ends_clean::<16>(text, start, end),
        8..16 => are_ends_clean::<8>(text, start, end),
        4..8 => are_ends_clean::<4>(text, start, end),
        _ => is_rest_clean(text, start),
    }
}

// The same of the bytes between two places, which are as many as a block has, up to twice as many.
#[inline(always)]
fn are_ends_clean<const N: usize>(text: &[u8], start: usize, end: usize) -> bool
    requires block { N ≤ 64 }
    requires covered { (start + N ≤ end) × (end ≤ start + 2 * N) × (end ≤ length text.now) }
    ensures { OnTrue result (IsCleanIn text.now start end) }
{
    let first = escapes_in::<N>(text, start);
    let last = escapes_in::<N>(text, end - N);
    (first == 0) & (last == 0)
}

// The same of the bytes from a place on, which are too few for a block.
#[inline(always)]
fn is_rest_clean(text: &[u8], start: usize) -> bool
    requires { start ≤ length text.now }
    ensures { OnTrue result (IsCleanIn text.now start (length text.now)) }
{
    for at in start..text.len() {
        if matches!(text[at], b'\\' | b'\n' | b'\r') {
            return false;
        }
    }
    true
}

/// Which of the N bytes from a place on the compact form escapes, as the bits of a mask, the first byte's the lowest.
#[inline(always)]
pub(crate) fn escapes_in<const N: usize>(text: &[u8], start: usize) -> u64
    requires block { N ≤ 64 }
    requires inside { start + N ≤ length text.now }
    ensures { OnTrue (nat_eq result 0) (IsCleanIn text.now start (start + N)) }
{
    let block = Simd::<u8, N>::from_slice(&text[start..]);
    let slash = block.simd_eq(Simd::splat(b'\\'));
    let newline = block.simd_eq(Simd::splat(b'\n'));
    let carriage_return = block.simd_eq(Simd::splat(b'\r'));
    (slash | newline | carriage_return).to_bitmask()
}
