// Premium in cents (requests K1 and K9): a rate list is applied to what is assigned (the paper's settled) in a session, from a base on that age bands may scale.
#![tactic(auto)]

mod cents;
mod lines;
mod running;

ghost use Rattle.std.specs.Prelude.{◌≡◌, true, ◌≤◌, nat_abs, Ok};
ghost use Rattle.book.specs.Numbers.{variables_of, formula_of};
ghost use Rattle.layout.specs.Layout.{held};
ghost use Rattle.validation.specs.Validation.{call_refusal};
ghost use Rattle.refusals.specs.Refusals.{checked};
ghost use Rattle.bands.specs.Bands.{max_factor};
ghost use Rattle.rating.specs.Pricing.{max_running, base_within, list_within, lines_of, run_refusal, price_refusal, premium_of, premium_answer};
ghost use Rattle.rating.specs.Ages as ages;
ghost use Rattle.rating.specs.Ages.{age_answer};

use cents::to_cents;
use lines::list_within;
use refusals::Refusal;
use running::Passed;

// The largest base (`max_base`).
const MAX_BASE: i64 = 1000000000;

// What a line does to the running amount: it adds an amount in cents, or a change in thousandths of it.
#[derive(Clone, Copy, Debug, PartialEq, Eq)]
enum Change {
    Amount(i32),
    Thousandths(i32),
}

// A line of a rate list: where its literal is true, it applies.
#[derive(Clone, Copy, Debug, PartialEq, Eq)]
struct RateLine {
    literal: u32,
    change: Change,
}

/// What a call that prices answers: the final amount in cents and the number of lines whose variable is open.
#[derive(Clone, Copy, Debug, PartialEq, Eq)]
pub struct Premium {
    pub amount: i64,
    pub open_lines: u32,
}

// Refuses what comes before the base and the lines: no book, no session on it, a session in conflict.
fn check_session(book: &[u32], session: &[u32]) -> Result<(), Refusal>
    ensures { result ≡ checked (call_refusal book.now session.now (run_refusal true)) }
{
    let shown = session::figures(book, session)?;
    if shown.conflict != 0 {
        return Err(Refusal::InConflict);
    }
    Ok(())
}

fn base_within(base: i64) -> bool
    ensures { result ≡ base_within base }
{
    base >= 0 && base <= MAX_BASE
}

// Refuses a call that prices before its first line: 11, 12, 14, then 19 for the base or the list.
fn check_price(book: &[u32], session: &[u32], base: i64, lines: &[i32]) -> Result<(), Refusal>
    ensures { result ≡ checked (price_refusal book.now session.now base lines.now) }
{
    check_session(book, session)?;
    if !base_within(base) || !list_within(book::variables(book), lines) {
        return Err(Refusal::PriceInput);
    }
    Ok(())
}

// The amount after all lines, from a start on, and the number of open lines.
fn premium_of(passed: Passed, start: i64, lines: &[i32]) -> Result<Premium, Refusal>
    requires list_bound { list_within (variables_of passed.book.now) lines.now ≡ true }
    requires start_bound { nat_abs start ≤ max_running }
    ensures { result ≡ premium_of start (lines_of lines.now) (Ok (held (formula_of passed.entry.book.now) passed.entry.session.now)) }
{
    match passed.apply_all(start, lines) {
        Some(amount) => Ok(Premium {
            amount,
            open_lines: passed.open_lines(lines),
        }),
        None => Err(Refusal::RunningAmount),
    }
}

/// Prices a session on a book by a base in cents and a rate list, three numbers a line: literal, 0 or 1, amount or thousandths.
pub fn price(book: &[u32], session: &[u32], base: i64, lines: &[i32]) -> Result<Premium, Refusal>
    ensures { result ≡ premium_answer book.now session.now base lines.now }
{
    check_price(book, session, base, lines)?;
    premium_of(Passed::new(book, session), base, lines)
}

// A base times the factor of an age, in whole cents.
fn scaled(base: i64, factor: u32) -> i64
    requires { (base_within base ≡ true) × (factor ≤ max_factor) }
    ensures { result ≡ ages.scaled base factor }
{
    to_cents(base * i64::from(factor))
}

/// Prices as `price` does, from the base on that the table of age bands scales for the customer's age.
pub fn price_for_age(
    book: &[u32],
    session: &[u32],
    base: i64,
    table: &[u32],
    age: u32,
    lines: &[i32],
) -> Result<Premium, Refusal>
    ensures { result ≡ age_answer book.now session.now base table.now age lines.now }
{
    check_price(book, session, base, lines)?;
    match bands::factor_at(table, age) {
        Ok(factor) => premium_of(Passed::new(book, session), scaled(base, factor), lines),
        Err(refusal) => Err(refusal),
    }
}
