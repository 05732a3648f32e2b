// Packed decimal for policy hosts (request K8): fields of 1 to 7 bytes, and quote records of up to three fields behind a bit map.
#![tactic(auto)]

mod fields;
mod records;

ghost use Rattle.std.specs.Prelude.{◌≡◌, length};
ghost use Rattle.packed.specs.Packed.{field_written, field_after, field_answer, record_written, record_after, record_answer};

use fields::{closed, field_refusal, number_in, put_field};
use records::{
    BASE, MAX_MAP, OPEN_LINES, PREMIUM, put_part, record_length, record_refusal, stands, values_of,
};
use refusals::Refusal;

// The most bytes of a field (`max_bytes`); a field of a record has all of them.
const MAX_BYTES: usize = 7;

/// A quote record: its bit map and its values, of which those count whose bit stands.
#[derive(Clone, Copy, Debug, PartialEq, Eq)]
pub struct QuoteRecord {
    /// Which values stand in the record.
    pub map: u8,
    /// The base, bit 0 of the map.
    pub base: i64,
    /// The premium, bit 1 of the map.
    pub premium: i64,
    /// The number of open lines, bit 2 of the map.
    pub open_lines: i64,
}

/// Writes a value as a field of so many bytes, and returns how many.
pub fn write_field(value: i64, bytes: usize, out: &mut [u8]) -> Result<u32, Refusal>
    ensures value { result ≡ field_written value bytes (length out.old) }
    ensures out_after { out.new ≡ field_after value bytes out.old }
{
    field_refusal(value, bytes, out.len())?;
    put_field(value, &mut out[..bytes]);
    Ok(bytes as u32)
}

/// Reads a field: all bytes lent.
#[tactic(auto, using(crate::proofs::FieldLaws::unread, crate::proofs::FieldLaws::read_bad), unfolding(crate::specs::Packed::length_within))]
pub fn read_field(bytes: &[u8]) -> Result<i64, Refusal>
    ensures { result ≡ field_answer bytes.now }
{
    let Some((&last, front)) = bytes.split_last() else {
        return Err(Refusal::PackedForm);
    };
    if front.len() >= MAX_BYTES {
        return Err(Refusal::PackedForm);
    }
    let number = number_in(front).ok_or(Refusal::PackedForm)?;
    closed(number, last)
}

/// Writes a quote record, the map and the values whose bit stands in it, and returns how many bytes it has.
pub fn write_quote(quote: QuoteRecord, out: &mut [u8]) -> Result<u32, Refusal>
    ensures value { result ≡ record_written quote.map quote.base quote.premium quote.open_lines (length out.old) }
    ensures out_after { out.new ≡ record_after quote.map quote.base quote.premium quote.open_lines out.old }
{
    record_refusal(quote, out.len())?;
    let map = quote.map;
    out[0] = map;
    let second = put_part(stands(map, BASE), quote.base, 1, out);
    let third = put_part(stands(map, PREMIUM), quote.premium, second, out);
    let end = put_part(stands(map, OPEN_LINES), quote.open_lines, third, out);
    Ok(end as u32)
}

/// Reads a quote record: all bytes lent. A value whose bit does not stand is 0.
#[tactic(auto, unfolding(crate::specs::Packed::map_within, crate::specs::Packed::record_good, crate::specs::Packed::record_answer))]
pub fn read_quote(bytes: &[u8]) -> Result<QuoteRecord, Refusal>
    ensures { result ≡ record_answer bytes.now }
{
    let Some(&map) = bytes.first() else {
        return Err(Refusal::PackedForm);
    };
    if map > MAX_MAP || bytes.len() != record_length(map) {
        return Err(Refusal::PackedForm);
    }
    values_of(map, bytes)
}
