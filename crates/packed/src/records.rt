// Quote records: the bits of a map, the refusals of writing a record, and its parts, each written and read at its place.
ghost use Rattle.std.specs.Prelude.{◌≡◌, true, cond, ◌++◌, ◌+◌, ◌*◌, ◌≤◌, ◌<◌, length, take, drop};
ghost use Rattle.packed.specs.Packed.{max_bytes, stands, record_length, part, part_within, values_within, record_refusal, part_at, map_of, record_answer, map_within};
ghost use Rattle.packed.specs.Inner.Reading.{part_answer};

use crate::fields::{put_field, value_within};
use crate::{MAX_BYTES, QuoteRecord, read_field};
use refusals::Refusal;

// The bits of a map, and the largest map: higher bits are 0.
pub(crate) const BASE: u32 = 0;

pub(crate) const PREMIUM: u32 = 1;

pub(crate) const OPEN_LINES: u32 = 2;

pub(crate) const MAX_MAP: u8 = 7;

// A bit of a map stands.
#[tactic(auto, unfolding(crate::specs::Packed::stands))]
pub(crate) fn stands(map: u8, bit: u32) -> bool
    requires { bit < 8 }
    ensures { result ≡ stands map bit }
{
    map >> bit & 1 == 1
}

// How many bytes a part has.
fn span(present: bool) -> usize
    ensures { result ≡ max_bytes * cond present 1 0 }
{
    if present { MAX_BYTES } else { 0 }
}

#[tactic(auto, unfolding(crate::specs::Packed::standing))]
pub(crate) fn record_length(map: u8) -> usize
    ensures { result ≡ record_length map }
{
    1 + span(stands(map, BASE)) + span(stands(map, PREMIUM)) + span(stands(map, OPEN_LINES))
}

// A value is within its digits, or not looked at.
#[tactic(auto, unfolding(crate::specs::Packed::length_within, crate::specs::Packed::part_within))]
fn part_within(present: bool, value: i64) -> bool
    ensures { result ≡ part_within present value }
{
    !present || value_within(MAX_BYTES, value)
}

// The values whose bit stands are within their digits.
#[tactic(auto, unfolding(crate::specs::Packed::values_within))]
fn values_within(quote: QuoteRecord) -> bool
    ensures { result ≡ values_within quote.map quote.base quote.premium quote.open_lines }
{
    let map = quote.map;
    part_within(stands(map, BASE), quote.base)
        && part_within(stands(map, PREMIUM), quote.premium)
        && part_within(stands(map, OPEN_LINES), quote.open_lines)
}

// Why a record is not written, if it is not.
#[tactic(auto, unfolding(crate::specs::Packed::map_within, crate::specs::Packed::record_refusal))]
pub(crate) fn record_refusal(quote: QuoteRecord, room: usize) -> Result<(), Refusal>
    ensures { result ≡ record_refusal quote.map quote.base quote.premium quote.open_lines room }
{
    if quote.map > MAX_MAP {
        return Err(Refusal::PackedForm);
    }
    if !values_within(quote) {
        return Err(Refusal::PackedDigits);
    }
    if room < record_length(quote.map) {
        return Err(Refusal::ShortMemory);
    }
    Ok(())
}

// Writes a part at a place, where it is present, and returns the place behind it.
#[tactic(auto, using(crate::proofs::PartLaws::absent_put, crate::proofs::PartLaws::present_put, crate::proofs::PartLaws::length_part))]
pub(crate) fn put_part(present: bool, value: i64, at: usize, out: &mut [u8]) -> usize
    requires { at + length (part present value) ≤ length out.old }
    ensures value { result ≡ at + length (part present value) }
    ensures out_after { out.new ≡ take at out.old ++ (part present value ++ drop (at + length (part present value)) out.old) }
{
    if !present {
        return at;
    }
    let end = at + MAX_BYTES;
    put_field(value, &mut out[at..end]);
    end
}

// Reads a part at a place, where it is present; else it is 0.
#[tactic(auto, unfolding(crate::specs::Inner::Reading::part_answer))]
fn read_part(present: bool, at: usize, bytes: &[u8]) -> Result<i64, Refusal>
    requires { at + max_bytes * cond present 1 0 ≤ length bytes.now }
    ensures { result ≡ part_answer present (part_at at bytes.now) }
{
    if !present {
        return Ok(0);
    }
    read_field(&bytes[at..at + MAX_BYTES])
}

// The answer for a record whose map has no higher bit and whose length fits it.
#[tactic(auto, using(crate::proofs::PartLaws::place_first, crate::proofs::PartLaws::place_second, crate::proofs::PartLaws::place_third, crate::proofs::PartLaws::place_end))]
pub(crate) fn values_of(map: u8, bytes: &[u8]) -> Result<QuoteRecord, Refusal>
    requires { (map ≡ map_of bytes.now) × (map_within map ≡ true) × (length bytes.now ≡ record_length map) }
    ensures { result ≡ record_answer bytes.now }
{
    let with_base = stands(map, BASE);
    let with_premium = stands(map, PREMIUM);
    let base = read_part(with_base, 1, bytes)?;
    let second = 1 + span(with_base);
    let premium = read_part(with_premium, second, bytes)?;
    let third = second + span(with_premium);
    let open_lines = read_part(stands(map, OPEN_LINES), third, bytes)?;
    Ok(QuoteRecord {
        map,
        base,
        premium,
        open_lines,
    })
}
