// The running amount: what a line does to it, and all lines in list order; and how many lines are open.
ghost use Rattle.std.specs.Prelude.{◌≡◌, true, ℕ, ◌≤◌, ℤ, nat_abs, Some};
ghost use Rattle.book.specs.Formula.{literal_within};
ghost use Rattle.book.specs.Numbers.{formula_of, variables_of};
ghost use Rattle.run.specs.Trail.{is_true};
ghost use Rattle.layout.specs.Layout.{held};
ghost use Rattle.layout.specs.Values.{value_in};
ghost use Rattle.validation.specs.Validation.{read_refusal};
ghost use Rattle.rating.specs.Pricing as pricing;
ghost use Rattle.rating.specs.Pricing.{max_running, change_within, list_within, lines_of, stepped, priced_by, open_lines, one_if_open};

use crate::Change;
use crate::cents::to_cents;
use crate::lines::{line_of, threes};
use layout::values::{Value, literal_value};
use signed::size_of;

// The limit of the running amount, on either side of zero (`max_running`).
const MAX_RUNNING: u64 = 1000000000000;

// The running amount after a line that applies.
fn applied(running: i64, change: Change) -> i64
    requires { (nat_abs running ≤ max_running) × (change_within change ≡ true) }
    ensures { result ≡ pricing.applied running change }
{
    match change {
        Change::Amount(cents) => running + i64::from(cents),
        Change::Thousandths(part) => running + to_cents(running * i64::from(part)),
    }
}

// The running amount, where it is within its limit.
fn limited(running: i64) -> Option<i64>
    ensures { result ≡ pricing.limited running }
{
    if size_of(running) > MAX_RUNNING {
        return None;
    }
    Some(running)
}

// A session that passes, on its book.
#[derive(Clone, Copy)]
pub(crate) struct Passed<'a> {
    pub(crate) book: &'a [u32],
    pub(crate) session: &'a [u32],
    ghost passes: { read_refusal book.now session.now ≡ 0 },
}

impl<'a> Passed<'a> {
    pub(crate) fn new(book: &'a [u32], session: &'a [u32]) -> Self
        requires { read_refusal book.now session.now ≡ 0 }
        ensures book { result.book.now ≡ book.now }
        ensures session { result.session.now ≡ session.now }
    {
        Passed { book, session }
    }

    fn value(self, literal: u32) -> Value
        requires { literal_within (variables_of self.book.now) literal ≡ true }
        ensures { result ≡ value_in (held (formula_of self.entry.book.now) self.entry.session.now).trail literal }
    {
        literal_value(self.session, book::variables(self.book), literal)
    }

    // A literal is true.
    fn is_true(self, literal: u32) -> bool
        requires { literal_within (variables_of self.book.now) literal ≡ true }
        ensures { result ≡ is_true (held (formula_of self.entry.book.now) self.entry.session.now).trail literal }
    {
        self.value(literal) == Value::True
    }

    // 1 where a literal's variable is open, else 0.
    fn one_if_open(self, literal: u32) -> u32
        requires { literal_within (variables_of self.book.now) literal ≡ true }
        ensures { result ≡ one_if_open (is_true (held (formula_of self.entry.book.now) self.entry.session.now).trail) literal }
    {
        u32::from(self.value(literal) == Value::Open)
    }

    // All lines, from a start on.
    pub(crate) fn apply_all(self, start: i64, numbers: &[i32]) -> Option<i64>
        requires list_bound { list_within (variables_of self.book.now) numbers.now ≡ true }
        requires start_bound { nat_abs start ≤ max_running }
        ensures { result ≡ priced_by (is_true (held (formula_of self.entry.book.now) self.entry.session.now).trail) (Some start) (lines_of numbers.now) }
    {
        let mut amount = start;
        let lines = threes(numbers);
        for &three in lines {
            let line = line_of(three);
            if self.is_true(line.literal) {
                amount = limited(applied(amount, line.change))?;
            }
        }
        Some(amount)
    }

    // How many lines have an open variable.
    pub(crate) fn open_lines(self, numbers: &[i32]) -> u32
        requires { list_within (variables_of self.book.now) numbers.now ≡ true }
        ensures { result ≡ open_lines (is_true (held (formula_of self.entry.book.now) self.entry.session.now).trail) (lines_of numbers.now) }
    {
        let mut count = 0;
        let lines = threes(numbers);
        for &three in lines {
            let line = line_of(three);
            count += self.one_if_open(line.literal);
        }
        count
    }
}
