//! Numbers at the ends of their range and beyond, in short and long lines: what such lines ask for, over their own text
//! and with copies of their texts.
use crate::tests::compare::same;
use crate::tests::lines::has_the_same_op;
use span_json::Scratch;
use span_script::json_line;
use std::alloc::{AllocError, Global};
use std::process::Abort;

/// Where in a list an item stands.
#[derive(Clone, Copy)]
enum Place {
    First,
    Middle,
    Last,
}

const PLACES: [Place; 3] = [Place::First, Place::Middle, Place::Last];

/// The reader looks for the places of tokens in pieces of 4096 bytes: within one, on both sides of its end, and over many.
const LENGTHS: [usize; 6] = [100, 4096, 4097, 65_536, 65_537, 80_000];

/// A line of this length, or longer where the item takes more, with the item in a list of zeros.
fn line_of(alloc: Global, item: &str, place: Place, length: usize) -> Result<String, AllocError> {
    let mut line = String::from_str(alloc, "{\"op\":\"find\",\"span\":\"a\",\"x\":[")?;
    let zeros = length
        .saturating_sub(line.len())
        .saturating_sub(item.len())
        .saturating_sub(2)
        / 2;
    let before = match place {
        Place::First => 0,
        Place::Middle => zeros / 2,
        Place::Last => zeros,
    };
    for _ in 0..before {
        line.push_str("0,")?;
    }
    line.push_str(item)?;
    for _ in before..zeros {
        line.push_str(",0")?;
    }
    line.push_str("]")?;
    for _ in line.len()..length.saturating_sub(1) {
        line.push_str(" ")?;
    }
    line.push_str("}")?;
    Ok(line)
}

/// Whether a line is JSON as it has to be, and the same in both forms; `number` tells the line.
fn is_json(
    rt: &impl Abort,
    alloc: Global,
    line: &[u8],
    scratch: &mut Scratch,
    wanted: bool,
    number: usize,
) {
    let given = json_line(alloc, line, scratch).is_ok();
    same(rt, given, wanted, number);
    has_the_same_op(rt, alloc, line, scratch, number);
}

/// The same in lines of several lengths, with this item in each place of a list.
fn are_json(
    rt: &impl Abort,
    alloc: Global,
    item: &str,
    scratch: &mut Scratch,
    wanted: bool,
    number: usize,
) {
    for length in LENGTHS {
        for place in PLACES {
            let line = line_of(alloc, item, place, length).expect(rt, "memory");
            is_json(rt, alloc, line.as_bytes(), scratch, wanted, number);
        }
    }
}

/// Numbers, and whether they are in range. The greatest float is 1.7976931348623157e308, and what is less than half a
/// step above is rounded to it.
static NUMBERS: [(&str, bool); 19] = [
    ("1e308", true),
    ("1e309", false),
    ("-1e308", true),
    ("-1e309", false),
    ("1E+309", false),
    ("1e0000000308", true),
    ("1e0000000309", false),
    ("1.7976931348623157e308", true),
    ("1.7976931348623158e308", true),
    ("1.7976931348623159e308", false),
    ("-1.7976931348623159e308", false),
    ("0.1e309", true),
    ("0.1e310", false),
    ("0e999999999999", true),
    ("1e-400", true),
    ("1e-999999999999999999999", true),
    ("1e999999999999999999999", false),
    ("18446744073709551616", true),
    ("-9223372036854775809", true),
];

#[test]
fn a_number_out_of_range_is_refused_wherever_it_stands(rt: HostRuntime) {
    let mut scratch = Scratch::new(rt.alloc());
    for (number, (item, wanted)) in NUMBERS.iter().enumerate() {
        are_json(&rt, rt.alloc(), item, &mut scratch, *wanted, number);
    }
}

/// Items that have such a number, or look like one, and whether they are JSON with numbers in range.
static ITEMS: [(&str, bool); 13] = [
    ("\"1e400\"", true),
    ("\"3e4 \\\"5e6\\\" \\u00e9 9e999 \\\\\"", true),
    ("{\"1e400\":\"7E7\"}", true),
    ("{\"k\":[[1e400]]}", false),
    ("1e400,\"\\ud83d\"", false),
    ("1e400,nul", false),
    ("1e400]]", false),
    ("1e400}", false),
    ("1e400 1", false),
    ("1e", false),
    ("1.e400", false),
    ("+1e3", false),
    ("0", true),
];

#[test]
fn what_looks_like_a_number_out_of_range_is_judged_as_what_it_is(rt: HostRuntime) {
    let mut scratch = Scratch::new(rt.alloc());
    for (number, (item, wanted)) in ITEMS.iter().enumerate() {
        are_json(&rt, rt.alloc(), item, &mut scratch, *wanted, number);
    }
}

/// A number of so many digits, all the same, with this before and that after it.
fn digits(
    alloc: Global,
    before: &str,
    digit: &str,
    count: usize,
    after: &str,
) -> Result<String, AllocError> {
    let digits = digit.repeat(alloc, count)?;
    format!(in alloc; "{before}{digits}{after}")
}

/// What stands before the digits, the digit, how many, what stands after them, and whether the number is in range.
static DIGITS: [(&str, &str, usize, &str, bool); 14] = [
    ("", "9", 299, "", true),
    ("", "9", 300, "", true),
    ("", "9", 308, "", true),
    ("", "1", 309, "", true),
    ("", "9", 309, "", false),
    ("-", "9", 309, "", false),
    ("", "1", 310, "", false),
    ("", "1", 310, ".5", false),
    ("", "1", 310, "e-1", true),
    ("", "1", 300, "e9", true),
    ("", "1", 300, "e10", false),
    ("0.", "9", 400, "", true),
    ("0.", "9", 400, "e309", false),
    ("\"", "9", 400, "\"", true),
];

#[test]
fn a_number_of_many_digits_is_refused_where_it_is_out_of_range(rt: HostRuntime) {
    let mut scratch = Scratch::new(rt.alloc());
    for (number, (before, digit, count, after, wanted)) in DIGITS.iter().enumerate() {
        let item = digits(rt.alloc(), before, digit, *count, after).expect(&rt, "memory");
        are_json(
            &rt,
            rt.alloc(),
            item.as_str(),
            &mut scratch,
            *wanted,
            number,
        );
    }
}
