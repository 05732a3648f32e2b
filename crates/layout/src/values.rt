// What session and book numbers say: the value of a literal, the level at a trail place, where a clause stands.
ghost use Rattle.std.specs.Prelude.{◌≡◌, ◌+◌, ◌*◌, ◌-◌, ◌%◌, ◌≤◌, ◌<◌, length, get_or, true};
ghost use Rattle.book.specs.Formula.{max_variables, variable_of};
ghost use Rattle.layout.specs.Layout.{TrailFits, value_slot, level_before};
ghost use Rattle.layout.specs.Values.{value_read};
ghost use Rattle.book.specs.Numbers.{clauses_of, clause_at, clause_start, well_formed};
ghost use Rattle.run.specs.Trail as trails;

use crate::offsets::{levels_at, value_slot};

// The value of a literal.
#[derive(Clone, Copy, Debug, PartialEq, Eq)]
pub enum Value {
    Open,
    True,
    False,
}

// What is left of a number when it is halved, by a shift and a subtraction: 1 of a negative literal, of its entry and of the first node of a clause.
pub fn parity(x: u32) -> u32
    ensures { result ≡ x % 2 }
{
    x - 2 * (x >> 1)
}

// The literal of the same variable with the other sign.
pub fn opposite(literal: u32) -> u32
    requires { literal ≤ 2 * max_variables + 1 }
    ensures { result ≡ trails.opposite literal }
{
    if parity(literal) == 0 {
        return literal + 1;
    }
    literal - 1
}

// The value of a literal, by the entry of its variable.
fn value_by(entry: u32, literal: u32) -> Value
    ensures { result ≡ value_read entry literal }
{
    if entry == 0 {
        return Value::Open;
    }
    if parity(entry) == parity(literal) {
        return Value::True;
    }
    Value::False
}

// The value of a literal, from the entries of the variables.
pub fn value_of(values: &[u32], literal: u32) -> Value
    requires { (2 ≤ literal) × (variable_of literal ≤ length values.now) }
    ensures { result ≡ value_read (get_or values.now (variable_of literal - 1) 0) literal }
{
    value_by(values[(literal >> 1) as usize - 1], literal)
}

// The value of a literal, from the numbers of a session.
pub fn literal_value(session: &[u32], variables: usize, literal: u32) -> Value
    requires { TrailFits variables session.now × (2 ≤ literal) × (variable_of literal ≤ variables) }
    ensures { result ≡ value_read (get_or session.now (value_slot variables literal) 0) literal }
{
    value_by(session[value_slot(variables, literal)], literal)
}

// The level of the trail literal before a place; 0 where there is none.
pub fn level_before(session: &[u32], variables: usize, at: usize) -> u32
    requires { TrailFits variables session.now × (at ≤ variables) }
    ensures { result ≡ level_before variables session.now at }
{
    if at == 0 {
        return 0;
    }
    session[levels_at(variables) + (at - 1)]
}

// The place at which clause c, from 0, begins; it ends where clause c + 1 begins. In a book of the right form both numbers are there.
pub fn clause_start(book: &[u32], c: usize) -> usize
    requires book_value { well_formed book.now ≡ true }
    requires c_bound { c ≤ clauses_of book.now }
    ensures { result ≡ clause_start book.now c }
{
    book[1] as usize + 4 + book[3 + c] as usize
}

// The literals of clause c, from 0.
pub fn clause(book: &[u32], c: usize) -> &[u32]
    requires book_value { well_formed book.now ≡ true }
    requires c_bound { c < clauses_of book.now }
    ensures { result.now ≡ clause_at book.now c }
{
    let start = clause_start(book, c);
    let end = clause_start(book, c + 1);
    &book[start..end]
}
