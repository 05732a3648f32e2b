// The steps that make no call: numbers are changed, or how many numbers the next calls are lent.
ghost use Rattle.std.specs.Prelude.{◌≤◌};
ghost use Rattle.book.specs.Formula.{max_variables, max_clauses};
ghost use Rattle.layout.specs.Layout.{required_length};

use crate::names::Part;
use crate::rows::{number, part};
use crate::space::damage;
use book::limits::{MAX_CLAUSES, MAX_VARIABLES};
use layout::offsets;
use std::ops::Range;

// The places of a part of a session, for V and C.
fn places(part: Part, variables: usize, clauses: usize) -> Range<usize>
    requires { (variables ≤ max_variables) × (clauses ≤ max_clauses) }
{
    let levels = offsets::levels_at(variables);
    let values = offsets::values_at(variables);
    let watches = offsets::watches_at(variables);
    let pointers = offsets::pointers_at(variables, clauses);
    let checks = offsets::checks_at(variables, clauses);
    let heads = offsets::head_slot(variables, clauses, 2);
    let links = offsets::link_slot(variables, clauses, 1);
    match part {
        Part::Header => offsets::LENGTH..offsets::TRAIL,
        Part::Trail => offsets::TRAIL..levels,
        Part::Levels => levels..values,
        Part::Values => values..watches,
        Part::Watches => watches..pointers,
        Part::Pointers => pointers..checks,
        Part::Checks => checks..heads,
        Part::Heads => heads..links,
        Part::Links => links..offsets::required_length(variables, clauses),
    }
}

// V and C of a book, or the most that they may be.
fn sizes(book: &[u32]) -> (usize, usize)
    ensures { (result.0 ≤ max_variables) × (result.1 ≤ max_clauses) }
{
    (
        book::variables(book).min(MAX_VARIABLES),
        book::clauses(book).min(MAX_CLAUSES),
    )
}

// The required length of a session on a book.
pub fn required_length(book: &[u32]) -> usize
    ensures { result ≤ required_length max_variables max_clauses }
{
    let (variables, clauses) = sizes(book);
    offsets::required_length(variables, clauses)
}

// Place k of a part, for the words PART k of a step; None where there is no such place.
fn place<'a>(book: &[u32], session: &'a mut [u32], step: &[u8]) -> Option<&'a mut u32> {
    let (variables, clauses) = sizes(book);
    let part = Part::of(part(step, b' ', 1))?;
    let at = places(part, variables, clauses).nth(number(step, b' ', 2) as usize)?;
    session.get_mut(at)
}

// `write PART k x` stores x at place k of a part.
pub fn write(rt: &impl Print, book: &[u32], session: &mut [u32], step: &[u8]) {
    damage(rt, place(book, session, step), number(step, b' ', 3));
}
