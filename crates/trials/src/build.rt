// The texts and scripts of trials: escapes decoded, pieces repeated.
ghost use Rattle.std.specs.Prelude.{◌≤◌, ◌<◌, IfSome, length};

use crate::messages::{Message, say};
use crate::rows::{number, part};

// The value of a hexadecimal digit, 0 for any other byte.
fn hexadecimal(digit: u8) -> u8
    ensures { result ≤ 15 }
{
    match digit {
        b'0'..=b'9' => digit - b'0',
        b'a'..=b'f' => digit - b'a' + 10,
        _ => 0,
    }
}

// The byte that two hexadecimal digits write; one that is missing counts as 0.
fn coded(digits: &[u8]) -> u8 {
    match digits {
        [] => 0,
        [high] => 16 * hexadecimal(*high),
        [high, low, ..] => 16 * hexadecimal(*high) + hexadecimal(*low),
    }
}

// The byte that the front of some bytes writes, and what is behind it: \n, \t, \r, \xNN, \ and another byte for that byte, or the byte itself.
fn decoded(bytes: &[u8]) -> Option<(u8, &[u8])>
    ensures { IfSome result (λ r. length r.1.now < length bytes.now) }
{
    match bytes {
        [] => None,
        [b'\\'] => Some((0, &[])),
        [b'\\', b'n', rest @ ..] => Some((b'\n', rest)),
        [b'\\', b't', rest @ ..] => Some((b'\t', rest)),
        [b'\\', b'r', rest @ ..] => Some((b'\r', rest)),
        [b'\\', b'x', digits @ ..] => Some((coded(digits), digits.get(2..).unwrap_or(&[]))),
        [b'\\', byte, rest @ ..] => Some((*byte, rest)),
        [byte, rest @ ..] => Some((*byte, rest)),
    }
}

// Puts what bytes write from a place on. Answers the place behind it, None where it does not fit.
fn put(text: &mut [u8], at: usize, bytes: &[u8]) -> Option<usize>
    requires { at ≤ length text.old }
    ensures { IfSome result (λ n. n ≤ length text.old) }
{
    let mut to = at;
    let mut rest = bytes;
    while let Some((byte, behind)) = decoded(rest) {
        *text.get_mut(to)? = byte;
        to += 1;
        rest = behind;
    }
    Some(to)
}

// Puts it so many times.
fn repeat(text: &mut [u8], at: usize, bytes: &[u8], times: u32) -> Option<usize>
    requires { at ≤ length text.old }
    ensures { IfSome result (λ n. n ≤ length text.old) }
{
    let mut to = at;
    for _ in 0..times {
        to = put(text, to, bytes)?;
    }
    Some(to)
}

// So many, where they fit; else that they do not is said, and as many as fit.
pub(crate) fn fitting(rt: &impl Print, n: Option<usize>, most: usize) -> usize
    requires { IfSome n (λ n. n ≤ most) }
    ensures { result ≤ most }
{
    match n {
        Some(n) => n,
        None => {
            say(rt, Message::TooLong);
            most
        }
    }
}

// What bytes write, in a space. Answers its length.
pub fn decode(rt: &impl Print, space: &mut [u8], bytes: &[u8]) -> usize
    ensures { result ≤ length space.old }
{
    let n = put(space, 0, bytes);
    fitting(rt, n, space.len())
}

// Field 2 of a row, field 3 as often as field 4 says, field 2 of a base as often as field 5 says, field 6.
fn put_text(space: &mut [u8], base: &[u8], row: &[u8]) -> Option<usize>
    ensures { IfSome result (λ n. n ≤ length space.old) }
{
    let head = put(space, 0, part(row, b'|', 2))?;
    let pieces = repeat(space, head, part(row, b'|', 3), number(row, b'|', 4))?;
    let bases = repeat(space, pieces, part(base, b'|', 2), number(row, b'|', 5))?;
    put(space, bases, part(row, b'|', 6))
}

// The text of a row. Answers its length.
pub(crate) fn text(rt: &impl Print, space: &mut [u8], base: &[u8], row: &[u8]) -> usize
    ensures { result ≤ length space.old }
{
    let n = put_text(space, base, row);
    fitting(rt, n, space.len())
}

// Whether a script has parts, parted by `*`, some of them repeated.
pub fn has_parts(script: &[u8]) -> bool {
    script.contains(&b'*')
}

// Part 0 of a script, part 1 as often as part 2 says, part 3 as often as part 4 says.
fn put_script(space: &mut [u8], script: &[u8]) -> Option<usize>
    ensures { IfSome result (λ n. n ≤ length space.old) }
{
    let head = put(space, 0, part(script, b'*', 0))?;
    let pieces = repeat(space, head, part(script, b'*', 1), number(script, b'*', 2))?;
    repeat(
        space,
        pieces,
        part(script, b'*', 3),
        number(script, b'*', 4),
    )
}

// The bytes of a script. Answers how many they are.
pub fn script_of(rt: &impl Print, space: &mut [u8], script: &[u8]) -> usize
    ensures { result ≤ length space.old }
{
    let n = put_script(space, script);
    fitting(rt, n, space.len())
}
