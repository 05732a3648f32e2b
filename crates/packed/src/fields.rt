// Packed decimal fields: the refusals of writing one, its bytes, and its digits and its sign as they are read.
ghost use Rattle.std.specs.Prelude.{◌≡◌, true, ◌^◌, ◌≤◌, ◌<◌, length};
ghost use Rattle.packed.specs.Packed.{length_within, value_within, digits_in, sign_of, field_of, field_refusal};
ghost use Rattle.packed.specs.Inner.Reading.{number_in, closed_by};

use crate::MAX_BYTES;
use refusals::Refusal;
use signed::{size_of, with_sign};

// The sign nibbles (`plus`, `minus`, `other_plus`): the third is only read.
const PLUS: u8 = 12;

const MINUS: u8 = 13;

const OTHER_PLUS: u8 = 15;

// 10 to the number of digits of a field, for 1 to 7 bytes.
const LIMITS: [u64; 7] = [
    10,
    1000,
    100000,
    10000000,
    1000000000,
    100000000000,
    10000000000000,
];

// A field has 1 to 7 bytes.
#[tactic(auto, unfolding(crate::specs::Packed::length_within))]
fn length_within(bytes: usize) -> bool
    ensures { result ≡ length_within bytes }
{
    1 <= bytes && bytes <= MAX_BYTES
}

// 10 to the number of digits of a field.
#[tactic(auto, using(crate::proofs::FormLaws::length_parts))]
fn limit(bytes: usize) -> u64
    requires { length_within bytes ≡ true }
    ensures { result ≡ 10 ^ digits_in bytes }
{
    LIMITS[bytes - 1]
}

// A value within the digits of a field.
#[tactic(auto, unfolding(crate::specs::Packed::value_within))]
pub(crate) fn value_within(bytes: usize, value: i64) -> bool
    requires { length_within bytes ≡ true }
    ensures { result ≡ value_within bytes value }
{
    size_of(value) < limit(bytes)
}

// Why a field is not written, if it is not.
#[tactic(auto, unfolding(crate::specs::Packed::field_refusal))]
pub(crate) fn field_refusal(value: i64, bytes: usize, room: usize) -> Result<(), Refusal>
    ensures { result ≡ field_refusal value bytes room }
{
    if !length_within(bytes) {
        return Err(Refusal::PackedForm);
    }
    if !value_within(bytes, value) {
        return Err(Refusal::PackedDigits);
    }
    if room < bytes {
        return Err(Refusal::ShortMemory);
    }
    Ok(())
}

// The sign nibble that is written: plus for zero.
#[tactic(auto, unfolding(crate::specs::Packed::sign_of))]
fn sign_of(value: i64) -> u8
    ensures { result ≡ sign_of value }
{
    let minus = value < 0;
    if minus { MINUS } else { PLUS }
}

// Writes a value as a field of as many bytes as are lent, the last byte first.
#[tactic(auto, using(crate::proofs::fields::Writing::sign_small, crate::proofs::fields::Writing::put_more, crate::proofs::fields::Writing::put_all))]
pub(crate) fn put_field(value: i64, out: &mut [u8])
    requires { 1 ≤ length out.old }
    ensures { out.new ≡ field_of (length out.old) value }
{
    let size = size_of(value);
    let last = out.len() - 1;
    out[last] = (size % 10 * 16) as u8 + sign_of(value);
    let mut rest = size / 10;
    for at in (0..last).rev() {
        out[at] = (rest / 10 % 10 * 16 + rest % 10) as u8;
        rest /= 100;
    }
}

// The number that the nibbles of bytes write, if all of them are digits.
#[tactic(auto, using(crate::proofs::fields::Reading::read_none, crate::proofs::fields::Reading::read_other, crate::proofs::fields::Reading::read_small, crate::proofs::fields::Reading::read_more, crate::proofs::fields::Reading::read_all))]
pub(crate) fn number_in(bytes: &[u8]) -> Option<u64>
    requires { length bytes.now < 7 }
    ensures { result ≡ number_in bytes.now }
{
    let mut number = 0;
    for &byte in bytes {
        let high = byte / 16;
        let low = byte % 16;
        if high > 9 || low > 9 {
            return None;
        }
        number = 100 * number + 10 * u64::from(high) + u64::from(low);
    }
    Some(number)
}

// The value of a field, by the number that its leading digits write and by its last byte.
#[tactic(auto, unfolding(crate::specs::Inner::Reading::closed_by, crate::specs::Packed::is_digit, crate::specs::Packed::is_sign))]
pub(crate) fn closed(number: u64, last: u8) -> Result<i64, Refusal>
    requires { number < 1000000000000 }
    ensures { result ≡ closed_by number last }
{
    let digit = last / 16;
    if digit > 9 {
        return Err(Refusal::PackedForm);
    }
    let size = 10 * number + u64::from(digit);
    match last % 16 {
        MINUS => Ok(with_sign(size, true)),
        PLUS | OTHER_PLUS => Ok(with_sign(size, false)),
        _ => Err(Refusal::PackedForm),
    }
}
