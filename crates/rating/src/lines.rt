// The lines of a rate list: how one is read in its three numbers, and whether all are within their ranges.
ghost use Rattle.std.specs.Prelude.{◌≡◌};
ghost use Rattle.rating.specs.Pricing.{literal_of, change_of, is_kind, change_within, line_within, list_within};
ghost use Rattle.rating.specs.Inner.Threes.{threes_of, line_from, three_within};

use crate::{Change, RateLine};

// The limits (`max_lines`, `max_amount`, `max_thousandths`).
const MAX_LINES: usize = 200;

const MAX_AMOUNT: u32 = 10000000;

const MAX_THOUSANDTHS: u32 = 1000;

#[tactic(auto, unfolding(crate::specs::Pricing::literal_of))]
fn literal_of(number: i32) -> u32
    ensures { result ≡ literal_of number }
{
    u32::try_from(number).unwrap_or(0)
}

fn change_of(kind: i32, value: i32) -> Change
    ensures { result ≡ change_of kind value }
{
    match kind {
        0 => Change::Amount(value),
        _ => Change::Thousandths(value),
    }
}

fn is_kind(kind: i32) -> bool
    ensures { result ≡ is_kind kind }
{
    kind == 0 || kind == 1
}

// A line by its three numbers.
pub(crate) fn line_of(three: [i32; 3]) -> RateLine
    ensures { result ≡ line_from three }
{
    let [literal, kind, value] = three;
    RateLine {
        literal: literal_of(literal),
        change: change_of(kind, value),
    }
}

// The whole lines of a rate list, three numbers each.
pub(crate) fn threes(numbers: &[i32]) -> &[[i32; 3]]
    ensures { result.now ≡ threes_of numbers.now }
{
    numbers.as_chunks::<3>().0
}

fn change_within(change: Change) -> bool
    ensures { result ≡ change_within change }
{
    match change {
        Change::Amount(cents) => cents.unsigned_abs() <= MAX_AMOUNT,
        Change::Thousandths(part) => part.unsigned_abs() <= MAX_THOUSANDTHS,
    }
}

fn line_within(variables: usize, line: RateLine) -> bool
    ensures { result ≡ line_within variables line }
{
    line.literal >= 2 && line.literal as usize / 2 <= variables && change_within(line.change)
}

// Three numbers are a line of one of the two kinds, within its ranges.
fn three_within(variables: usize, three: [i32; 3]) -> bool
    ensures { result ≡ three_within variables three }
{
    let [_, kind, _] = three;
    is_kind(kind) && line_within(variables, line_of(three))
}

// The numbers are at most 200 whole lines, each within its ranges.
pub(crate) fn list_within(variables: usize, numbers: &[i32]) -> bool
    ensures { result ≡ list_within variables numbers.now }
{
    let lines = threes(numbers);
    numbers.len() % 3 == 0
        && lines.len() <= MAX_LINES
        && lines.iter().all(|three| three_within(variables, *three))
}
