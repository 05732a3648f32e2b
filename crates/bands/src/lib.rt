// Age bands (request K9): a table of bands that the insurer edits, the lowest age at fault in it, and the factor of an age.
#![tactic(auto)]

ghost use Rattle.std.specs.Prelude.{◌≡◌, map};
ghost use Rattle.bands.specs.Bands as bands;
ghost use Rattle.bands.specs.Bands.{bands_of, band_within, table_within, lies_in, checked_table, factor_at, factor_answer, refused_by};
ghost use Rattle.bands.specs.Inner.Triples.{band_from};

use refusals::Refusal;
use std::error::Error;
use std::fmt;

// The limits (`max_bands`, `max_age`, `max_factor`).
const MAX_BANDS: usize = 64;

const MAX_AGE: u32 = 120;

const MAX_FACTOR: u32 = 5000;

/// A band: the ages from a first one to a last one, and their factor in thousandths.
#[derive(Clone, Copy, Debug, PartialEq, Eq)]
pub struct Band {
    first: u32,
    last: u32,
    factor: u32,
}

/// What the checker finds wrong with a table.
#[derive(Clone, Copy, Debug, PartialEq, Eq)]
pub enum TableFault {
    /// Something in it is outside its range (the paper's false).
    Malformed,
    /// The lowest age at fault lies in no band.
    Gap { age: u32 },
    /// The lowest age at fault lies in more than one band.
    Overlap { age: u32 },
}

impl fmt::Display for TableFault {
    fn fmt<W: fmt::Write>(&self, f: &mut fmt::Formatter<W>) -> fmt::Result {
        match self {
            TableFault::Malformed => write!(f, "the table is false"),
            TableFault::Gap { age } => write!(f, "age {age} lies in no band"),
            TableFault::Overlap { age } => write!(f, "age {age} lies in more than one band"),
        }
    }
}

impl Error for TableFault {}

/// The refusal of a call that prices by such a table.
impl From<TableFault> for Refusal {
    ghost from_gives = { λ fault refusal. refusal ≡ refused_by fault };

    fn from(fault: TableFault) -> Refusal {
        match fault {
            TableFault::Malformed => Refusal::PriceInput,
            TableFault::Gap { age: _ } => Refusal::AgeGap,
            TableFault::Overlap { age: _ } => Refusal::AgeOverlap,
        }
    }
}

// A band by its three numbers.
fn band_of(numbers: [u32; 3]) -> Band
    ensures { result ≡ band_from numbers }
{
    let [first, last, factor] = numbers;
    Band {
        first,
        last,
        factor,
    }
}

// The whole bands of a table, three numbers each.
#[tactic(auto, using(crate::proofs::TableLaws::bands_by_threes))]
fn triples(table: &[u32]) -> &[[u32; 3]]
    ensures { map band_from result.now ≡ bands_of table.now }
{
    table.as_chunks::<3>().0
}

#[tactic(auto, unfolding(crate::specs::Bands::band_within))]
fn band_within(band: Band) -> bool
    ensures { result ≡ band_within band }
{
    band.first <= band.last && band.last <= MAX_AGE && band.factor <= MAX_FACTOR
}

// The numbers are at most 64 whole bands, each within its ranges.
fn table_within(table: &[u32]) -> bool
    ensures { result ≡ table_within table.now }
{
    let bands = triples(table);
    table.len() % 3 == 0
        && bands.len() <= MAX_BANDS
        && bands.iter().copied().map(band_of).all(band_within)
}

#[tactic(auto, unfolding(crate::specs::Bands::lies_in))]
fn lies_in(age: u32, band: Band) -> bool
    ensures { result ≡ lies_in age band }
{
    band.first <= age && age <= band.last
}

// How many bands an age lies in.
fn holders(table: &[u32], age: u32) -> usize
    ensures { result ≡ bands.holders age (bands_of table.now) }
{
    triples(table)
        .iter()
        .copied()
        .map(band_of)
        .filter(|band| lies_in(age, *band))
        .count()
}

/// Checks a table, and reports the lowest age at fault.
#[tactic(auto, using(crate::proofs::TableLaws::outside, crate::proofs::TableLaws::right_none, crate::proofs::TableLaws::held_none, crate::proofs::TableLaws::held_several, crate::proofs::TableLaws::right_more, crate::proofs::TableLaws::right_all))]
pub fn check_bands(table: &[u32]) -> Result<(), TableFault>
    ensures { result ≡ checked_table table.now }
{
    if !table_within(table) {
        return Err(TableFault::Malformed);
    }
    for age in 0..=MAX_AGE {
        let held = holders(table, age);
        if held == 0 {
            return Err(TableFault::Gap { age });
        }
        if held > 1 {
            return Err(TableFault::Overlap { age });
        }
    }
    Ok(())
}

// The factor of the first band that an age lies in, or 0.
fn first_factor(table: &[u32], age: u32) -> u32
    ensures { result ≡ factor_at age (bands_of table.now) }
{
    triples(table)
        .iter()
        .copied()
        .map(band_of)
        .find(|band| lies_in(age, *band))
        .map_or(0, |band| band.factor)
}

/// The factor of an age in a good table.
#[tactic(auto, unfolding(crate::specs::Bands::factor_answer))]
pub fn factor_at(table: &[u32], age: u32) -> Result<u32, Refusal>
    ensures { result ≡ factor_answer table.now age }
{
    if age > MAX_AGE {
        return Err(Refusal::PriceInput);
    }
    check_bands(table)?;
    Ok(first_factor(table, age))
}
