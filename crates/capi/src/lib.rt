// The calls of book, session, chapters, quote, bands, rating and packed for C: slices as a pointer and a length, answers as one number.
#![tactic(auto)]

ghost use Rattle.std.specs.Prelude.{◌≡◌, length, set};
ghost use Rattle.book.specs.Reading.{read_text};
ghost use Rattle.book.specs.Answer.{read_answer, numbers_after};
ghost use Rattle.run.specs.Run.{trail_behind};
ghost use Rattle.session.specs.Outcomes.{required_answer, open_answer, open_numbers, decide_answer, decide_numbers, backtrack_answer, backtrack_numbers, fix_answer, fix_numbers, fixed_answer, lookup_answer, figures_answer, total_answer, copy_answer, copy_numbers, checks_of_run};
ghost use Rattle.chapters.specs.Chapters.{chapter_answer, chapter_numbers};
ghost use Rattle.quote.specs.Quote.{quote_answer};
ghost use Rattle.bands.specs.Bands.{checked_table};
ghost use Rattle.rating.specs.Pricing.{premium_answer};
ghost use Rattle.rating.specs.Ages.{age_answer};
ghost use Rattle.packed.specs.Packed.{field_written, field_after, field_answer, record_written, record_after, record_answer};
ghost use Rattle.refusals.specs.Refusals.{number_of};
ghost use Rattle.capi.specs.Codes.{refusal_code, done_code, count_code, propagated_code, answer_code, level_code, assigned_code, figures_code, figures_after, sum_after, filing_code, quote_code, quote_after, ceiling_after, premium_code, amount_after, checked_code, age_after, value_after, record_code, base_after, premium_after, lines_after};

use bands::TableFault;
use packed::QuoteRecord;
use rating::Premium;
use refusals::Refusal;
use session::{Assigned, Propagated};

fn refused(refusal: Refusal) -> u64
    ensures { result ≡ refusal_code (number_of refusal) }
{
    2 * 4294967296 + u64::from(refusal.number())
}

// 0, or the refusal.
fn done_code(answer: Result<(), Refusal>) -> u64
    ensures { result ≡ done_code answer }
{
    match answer {
        Ok(_) => 0,
        Err(refusal) => refused(refusal),
    }
}

// How many, or the refusal.
fn count_code(answer: Result<u32, Refusal>) -> u64
    ensures { result ≡ count_code answer }
{
    match answer {
        Ok(n) => u64::from(n),
        Err(refusal) => refused(refusal),
    }
}

fn propagated_code(propagated: Propagated) -> u64
    ensures { result ≡ propagated_code propagated }
{
    match propagated {
        Propagated::Implied(n) => u64::from(n),
        Propagated::Conflict(clause) => 4294967296 + u64::from(clause),
    }
}

fn answer_code(answer: Result<Propagated, Refusal>) -> u64
    ensures { result ≡ answer_code answer }
{
    match answer {
        Ok(propagated) => propagated_code(propagated),
        Err(refusal) => refused(refusal),
    }
}

fn level_code(assigned: Assigned) -> u64
    ensures { result ≡ level_code assigned }
{
    match assigned {
        Assigned::Open => 0,
        Assigned::Positive(level) => 4 * u64::from(level) + 1,
        Assigned::Negative(level) => 4 * u64::from(level) + 2,
    }
}

// The number of open lines, or the refusal; the amount goes to `amount`.
fn premium_code(answer: Result<Premium, Refusal>, amount: &mut i64) -> u64
    ensures value { result ≡ premium_code answer }
    ensures amount_after { amount.new ≡ amount_after answer amount.old }
{
    match answer {
        Ok(premium) => {
            *amount = premium.amount;
            u64::from(premium.open_lines)
        }
        Err(unpriced) => refused(unpriced),
    }
}

// Stores a number at a place of `out`, where there is one.
fn put(number: u32, at: usize, out: &mut [u32])
    ensures { out.new ≡ set out.old at number }
{
    if at < out.len() {
        out[at] = number;
    }
}

// Reads a rule book.
#[unsafe(no_mangle)]
pub extern "C" fn tariff_read(text: &[u8], book: &mut [u32]) -> u64
    ensures value { result ≡ done_code (read_answer (read_text text.now) (length book.old)) }
    ensures book_after { book.new ≡ numbers_after (read_text text.now) book.old }
{
    match book::read(text, book) {
        Ok(_sizes) => 0,
        Err(refusal) => refused(refusal),
    }
}

// The required length of a session.
#[unsafe(no_mangle)]
pub extern "C" fn tariff_required_length(book: &[u32]) -> u64
    ensures { result ≡ count_code (required_answer book.now) }
{
    count_code(session::required_length(book))
}

// Opens a session.
#[unsafe(no_mangle)]
pub extern "C" fn tariff_open(book: &[u32], session: &mut [u32]) -> u64
    ensures value { result ≡ answer_code (open_answer book.now (length session.old)) }
    ensures session_after { session.new ≡ open_numbers book.now session.old }
{
    answer_code(session::open(book, session))
}

// Decides a literal and propagates.
#[unsafe(no_mangle)]
pub extern "C" fn tariff_decide(book: &[u32], session: &mut [u32], literal: u32) -> u64
    ensures value { result ≡ answer_code (decide_answer book.now session.old literal) }
    ensures session_after { session.new ≡ decide_numbers book.now session.old literal }
{
    answer_code(session::decide(book, session, literal))
}

// Takes back the last k decisions.
#[unsafe(no_mangle)]
pub extern "C" fn tariff_backtrack(book: &[u32], session: &mut [u32], k: u32) -> u64
    ensures value { result ≡ done_code (backtrack_answer book.now session.old k) }
    ensures session_after { session.new ≡ backtrack_numbers book.now session.old k }
{
    done_code(session::backtrack(book, session, k))
}

// Fixes the first f decisions in force.
#[unsafe(no_mangle)]
pub extern "C" fn tariff_fix(book: &[u32], session: &mut [u32], f: u32) -> u64
    ensures value { result ≡ done_code (fix_answer book.now session.old f) }
    ensures session_after { session.new ≡ fix_numbers book.now session.old f }
{
    done_code(session::fix(book, session, f))
}

// How many decisions are fixed.
#[unsafe(no_mangle)]
pub extern "C" fn tariff_fixed(book: &[u32], session: &[u32]) -> u64
    ensures { result ≡ count_code (fixed_answer book.now session.now) }
{
    count_code(session::fixed(book, session))
}

// How a variable is assigned, and at which level.
#[unsafe(no_mangle)]
pub extern "C" fn tariff_lookup(book: &[u32], session: &[u32], variable: u32) -> u64
    ensures { result ≡ assigned_code (lookup_answer book.now session.now variable) }
{
    match session::lookup(book, session, variable) {
        Ok(assigned) => level_code(assigned),
        Err(refusal) => refused(refusal),
    }
}

// Copies the trail's literals behind the first `before` to `out`: what fits.
#[unsafe(no_mangle)]
pub extern "C" fn tariff_trail_from(
    book: &[u32],
    session: &[u32],
    before: u32,
    out: &mut [u32],
) -> u64
    ensures value { result ≡ count_code (copy_answer book.now session.now (trail_behind before)) }
    ensures out_after { out.new ≡ copy_numbers book.now session.now (trail_behind before) out.old }
{
    count_code(session::trail_from(book, session, before, out))
}

// Copies decisions in force, accepted backtracks, trail length and conflict clause to `out`: what fits.
#[unsafe(no_mangle)]
pub extern "C" fn tariff_figures(book: &[u32], session: &[u32], out: &mut [u32]) -> u64
    ensures value { result ≡ figures_code (figures_answer book.now session.now) }
    ensures out_after { out.new ≡ figures_after (figures_answer book.now session.now) out.old }
{
    match session::figures(book, session) {
        Ok(shown) => {
            put(shown.decisions, 0, out);
            put(shown.backtracks, 1, out);
            put(shown.trail, 2, out);
            put(shown.conflict, 3, out);
            4
        }
        Err(refusal) => refused(refusal),
    }
}

// Copies the checks of each clause to `out`: what fits.
#[unsafe(no_mangle)]
pub extern "C" fn tariff_checks(book: &[u32], session: &[u32], out: &mut [u32]) -> u64
    ensures value { result ≡ count_code (copy_answer book.now session.now checks_of_run) }
    ensures out_after { out.new ≡ copy_numbers book.now session.now checks_of_run out.old }
{
    count_code(session::checks(book, session, out))
}

// The sum of all checks, into `sum`.
#[unsafe(no_mangle)]
pub extern "C" fn tariff_total(book: &[u32], session: &[u32], sum: &mut u64) -> u64
    ensures value { result ≡ done_code (total_answer book.now session.now) }
    ensures sum_after { sum.new ≡ sum_after (total_answer book.now session.now) sum.old }
{
    match session::total(book, session) {
        Ok(checks) => {
            *sum = checks;
            0
        }
        Err(refusal) => refused(refusal),
    }
}

// Writes the checks of each chapter to `totals`, where the chapters of the clauses and the room for the totals fit.
#[unsafe(no_mangle)]
pub extern "C" fn tariff_chapters(
    book: &[u32],
    session: &[u32],
    chapters: &[u32],
    totals: &mut [u64],
) -> u64
    ensures value { result ≡ filing_code (chapter_answer book.now session.now chapters.now (length totals.old)) }
    ensures totals_after { totals.new ≡ chapter_numbers book.now session.now chapters.now totals.old }
{
    match chapters::chapter_totals(book, session, chapters, totals) {
        Ok(written) => u64::from(written),
        Err(refusal) => refused(refusal),
    }
}

// Copies to `out`, as far as they fit, the session's length, W and how many lines of the form `b k` the script has; the quoted ceiling goes to `ceiling`.
#[unsafe(no_mangle)]
pub extern "C" fn tariff_quote(
    book: &[u32],
    script: &[u8],
    out: &mut [u32],
    ceiling: &mut u64,
) -> u64
    ensures value { result ≡ quote_code (quote_answer book.now script.now) }
    ensures out_after { out.new ≡ quote_after (quote_answer book.now script.now) out.old }
    ensures ceiling_after { ceiling.new ≡ ceiling_after (quote_answer book.now script.now) ceiling.old }
{
    match quote::quote_script(book, script) {
        Ok(quote) => {
            put(quote.length, 0, out);
            put(quote.worst, 1, out);
            put(quote.back_lines, 2, out);
            *ceiling = quote.ceiling;
            3
        }
        Err(refusal) => refused(refusal),
    }
}

// Prices what is assigned in a session by a base in cents and a rate list. Accepted: the number of lines whose variable is open; the final amount goes to `amount`.
#[unsafe(no_mangle)]
pub extern "C" fn tariff_price(
    book: &[u32],
    session: &[u32],
    base: i64,
    lines: &[i32],
    amount: &mut i64,
) -> u64
    ensures value { result ≡ premium_code (premium_answer book.now session.now base lines.now) }
    ensures amount_after { amount.new ≡ amount_after (premium_answer book.now session.now base lines.now) amount.old }
{
    premium_code(rating::price(book, session, base, lines), amount)
}

// Checks a table of age bands. Good: 0; a refusal's number with the lowest age at fault in `age`; or that the table is false.
#[unsafe(no_mangle)]
pub extern "C" fn tariff_check_bands(table: &[u32], age: &mut u32) -> u64
    ensures value { result ≡ checked_code (checked_table table.now) }
    ensures age_after { age.new ≡ age_after (checked_table table.now) age.old }
{
    match bands::check_bands(table) {
        Ok(_) => 0,
        Err(TableFault::Malformed) => 3 * 4294967296,
        Err(TableFault::Gap { age: uncovered }) => {
            *age = uncovered;
            refused(Refusal::AgeGap)
        }
        Err(TableFault::Overlap { age: covered_twice }) => {
            *age = covered_twice;
            refused(Refusal::AgeOverlap)
        }
    }
}

// Prices as `tariff_price` does, from the base on that the table of age bands scales for the customer's age.
#[unsafe(no_mangle)]
pub extern "C" fn tariff_price_for_age(
    book: &[u32],
    session: &[u32],
    base: i64,
    table: &[u32],
    age: u32,
    lines: &[i32],
    amount: &mut i64,
) -> u64
    ensures value { result ≡ premium_code (age_answer book.now session.now base table.now age lines.now) }
    ensures amount_after { amount.new ≡ amount_after (age_answer book.now session.now base table.now age lines.now) amount.old }
{
    premium_code(
        rating::price_for_age(book, session, base, table, age, lines),
        amount,
    )
}

// Writes a value as a field of packed decimal. Accepted: how many bytes.
#[unsafe(no_mangle)]
pub extern "C" fn tariff_write_field(value: i64, bytes: usize, out: &mut [u8]) -> u64
    ensures value { result ≡ count_code (field_written value bytes (length out.old)) }
    ensures out_after { out.new ≡ field_after value bytes out.old }
{
    count_code(packed::write_field(value, bytes, out))
}

// Reads a field of packed decimal, into `value`. Accepted: 0.
#[unsafe(no_mangle)]
pub extern "C" fn tariff_read_field(field: &[u8], value: &mut i64) -> u64
    ensures value { result ≡ done_code (field_answer field.now) }
    ensures value_after { value.new ≡ value_after (field_answer field.now) value.old }
{
    match packed::read_field(field) {
        Ok(number) => {
            *value = number;
            0
        }
        Err(refusal) => refused(refusal),
    }
}

// Writes a quote record: the map, and the values whose bit stands in it. Accepted: how many bytes.
#[unsafe(no_mangle)]
pub extern "C" fn tariff_write_quote(
    map: u8,
    base: i64,
    premium: i64,
    open_lines: i64,
    out: &mut [u8],
) -> u64
    ensures value { result ≡ count_code (record_written map base premium open_lines (length out.old)) }
    ensures out_after { out.new ≡ record_after map base premium open_lines out.old }
{
    let record = QuoteRecord {
        map,
        base,
        premium,
        open_lines,
    };
    count_code(packed::write_quote(record, out))
}

// Reads a quote record, into `base`, `premium` and `open_lines`. Accepted: the map.
#[unsafe(no_mangle)]
pub extern "C" fn tariff_read_quote(
    quote: &[u8],
    base: &mut i64,
    premium: &mut i64,
    open_lines: &mut i64,
) -> u64
    ensures value { result ≡ record_code (record_answer quote.now) }
    ensures base_after { base.new ≡ base_after (record_answer quote.now) base.old }
    ensures premium_after { premium.new ≡ premium_after (record_answer quote.now) premium.old }
    ensures open_lines_after { open_lines.new ≡ lines_after (record_answer quote.now) open_lines.old }
{
    match packed::read_quote(quote) {
        Ok(record) => {
            *base = record.base;
            *premium = record.premium;
            *open_lines = record.open_lines;
            u64::from(record.map)
        }
        Err(refusal) => refused(refusal),
    }
}
