//! How far bytes of one kind go in a text.
ghost use Rattle.std.specs.Prelude.{◌≡◌, ◌+◌, ◌≤◌, length, drop, map};
ghost use Rattle.std.specs.List.{prefix_len};
ghost use Rattle.std.specs.Simd.Lanes.{chunk, mask_l};
ghost use Rattle.json.specs.Run.{is_plain, is_stop};
ghost use Rattle.json.specs.Word.{is_space};
ghost use Rattle.span_json.specs.inside.Plain.{is_other};

use std::simd::prelude::*;

// How many bytes are looked at together.
const BLOCK: usize = 16;

/// Whether JSON lets this byte stand between its tokens.
#[inline(always)]
pub(crate) fn is_space(byte: u8) -> bool
    ensures { result ≡ is_space byte }
{
    // (so most bytes take one comparison)
    byte <= b' ' && matches!(byte, b' ' | b'\t' | b'\n' | b'\r')
}

/// Where the spaces from a place on end.
#[inline(always)]
pub(crate) fn spaces_end(text: &[u8], from: usize) -> usize
    requires { from ≤ length text.now }
    ensures end { result ≡ from + prefix_len is_space (drop from text.now) }
    ensures inside { result ≤ length text.now }
{
    // (in most places there are none)
    if from == text.len() || !is_space(text[from]) {
        return from;
    }
    some_spaces_end(text, from)
}

// The same where there are some, which may be many.
#[inline(never)]
fn some_spaces_end(text: &[u8], from: usize) -> usize
    requires { from ≤ length text.now }
    ensures end { result ≡ from + prefix_len is_space (drop from text.now) }
    ensures inside { result ≤ length text.now }
{
    let mut at = from;
    while text.len() - at >= BLOCK {
        let others = others_in(text, at);
        if others != 0 {
            return at + others.trailing_zeros() as usize;
        }
        at += BLOCK;
    }
    few_spaces_end(text, at)
}

// The same, byte by byte.
#[inline(always)]
fn few_spaces_end(text: &[u8], from: usize) -> usize
    requires { from ≤ length text.now }
    ensures end { result ≡ from + prefix_len is_space (drop from text.now) }
    ensures inside { result ≤ length text.now }
{
    let mut at = from;
    while at < text.len() && is_space(text[at]) {
        at += 1;
    }
    at
}

// Which bytes of a block are no spaces, as the bits of a mask, the first byte's the lowest.
#[inline(always)]
fn others_in(text: &[u8], at: usize) -> u64
    requires { at + 16 ≤ length text.now }
    ensures { result ≡ mask_l (map is_other (chunk at 16 text.now)) }
{
    let block = Simd::<u8, BLOCK>::from_slice(&text[at..]);
    let blanks = block.simd_ne(Simd::splat(b' ')) & block.simd_ne(Simd::splat(b'\t'));
    let ends = block.simd_ne(Simd::splat(b'\n')) & block.simd_ne(Simd::splat(b'\r'));
    (blanks & ends).to_bitmask()
}

/// Where the bytes that numbers are made of end, from a place on.
#[inline(always)]
pub(crate) fn number_end(text: &[u8], from: usize) -> usize
    requires { from ≤ length text.now }
    ensures { (from ≤ result) × (result ≤ length text.now) }
{
    let mut at = from;
    while at < text.len() && matches!(text[at], b'0'..=b'9' | b'-' | b'+' | b'.' | b'e' | b'E') {
        at += 1;
    }
    at
}

/// Where the bytes that stand for themselves in a text of JSON end, from a place on: a quote, a backslash or a control
/// character stands there, or nothing.
#[inline(always)]
pub(crate) fn plain_end(text: &[u8], from: usize) -> usize
    requires { from ≤ length text.now }
    ensures end { result ≡ from + prefix_len is_plain (drop from text.now) }
    ensures inside { result ≤ length text.now }
{
    let mut at = from;
    while text.len() - at >= BLOCK {
        let stops = stops_in(text, at);
        if stops != 0 {
            return at + stops.trailing_zeros() as usize;
        }
        at += BLOCK;
    }
    short_plain_end(text, at)
}

// The same, byte by byte.
#[inline(always)]
fn short_plain_end(text: &[u8], from: usize) -> usize
    requires { from ≤ length text.now }
    ensures end { result ≡ from + prefix_len is_plain (drop from text.now) }
    ensures inside { result ≤ length text.now }
{
    let mut at = from;
    while at < text.len() && text[at] != b'"' && text[at] != b'\\' && text[at] >= b' ' {
        at += 1;
    }
    at
}

// Which bytes of a block don't stand for themselves, as the bits of a mask, the first byte's the lowest.
#[inline(always)]
fn stops_in(text: &[u8], at: usize) -> u64
    requires { at + 16 ≤ length text.now }
    ensures { result ≡ mask_l (map is_stop (chunk at 16 text.now)) }
{
    let block = Simd::<u8, BLOCK>::from_slice(&text[at..]);
    let quotes = block.simd_eq(Simd::splat(b'"'));
    let slashes = block.simd_eq(Simd::splat(b'\\'));
    let controls = block.simd_lt(Simd::splat(b' '));
    (quotes | slashes | controls).to_bitmask()
}
