// The validation (the paper's examination) of a lent session, on any numbers.
#![tactic(auto)]

mod cells;
mod conflict;
mod fixpoint;
mod lists;
mod places;
mod reasons;
mod trail;

ghost use Rattle.std.specs.Prelude.{◌≡◌, true, ◌≤◌, length, get_or};
ghost use Rattle.book.specs.Numbers.{clauses_of, formula_of, well_formed};
ghost use Rattle.layout.specs.Layout.{conflict_at, trail_at};
ghost use Rattle.refusals.specs.Refusals.{checked};
ghost use Rattle.validation.specs.Validation.{passes, read_refusal};
ghost use Rattle.validation.specs.Inner.Cells.{CellsGood};
ghost use Rattle.validation.specs.Inner.Header.{HeaderGood};
ghost use Rattle.validation.specs.Inner.Places.{TrailPassed};
ghost use Rattle.validation.specs.Inner.Says.{Says};
ghost use Rattle.validation.specs.Inner.Session.{ConflictGood};

use crate::cells::cells_pass;
use crate::conflict::conflict_false;
use crate::fixpoint::fixpoint;
use crate::lists::lists_pass;
use crate::reasons::justified;
use crate::trail::trail_passes;
use layout::limits::MAX_BACKTRACKS;
use layout::offsets::{BACKTRACKS, CONFLICT, DECISIONS, FIXED, required_length};
use refusals::Refusal;

// The header beside the trail's two numbers: the conflict clause, where one is named, is one of the book's, there are not too many backtracks,
// and no more decisions are fixed than are in force.
fn header_passes(session: &[u32], clauses: usize) -> bool
    requires { trail_at ≤ length session.now }
    ensures { Says result (HeaderGood clauses session.now) }
{
    session[CONFLICT] as usize <= clauses
        && session[BACKTRACKS] <= MAX_BACKTRACKS
        && session[FIXED] <= session[DECISIONS]
}

// With no conflict propagation is at its end; in conflict a clause is all false, and propagation was at its end below the top level.
fn conflict_passes(book: &[u32], session: &[u32]) -> bool
    requires trail_passed { TrailPassed book.now session.now }
    requires cells_good { CellsGood (formula_of book.now) session.now }
    requires conflict_within { get_or session.now conflict_at 0 ≤ clauses_of book.now }
    ensures { Says result (ConflictGood book.now session.now) }
{
    let conflict = session[CONFLICT] as usize;
    if conflict == 0 {
        return fixpoint(book, session, false);
    }
    conflict_false(book, session, conflict - 1)
        && (session[DECISIONS] == 0 || fixpoint(book, session, true))
}

// The numbers are those of a valid run: number 12 of the table is given exactly where this is false.
#[tactic(auto, using(book::proofs::WellFormedLaws::well_formed_limited, crate::proofs::ValidateLaws::looking, crate::proofs::ValidateLaws::all_pass, crate::proofs::ValidateLaws::passes_parts))]
fn session_passes(book: &[u32], session: &[u32]) -> bool
    requires { well_formed book.now ≡ true }
    ensures { result ≡ passes (formula_of book.now) session.now }
{
    let variables = book::variables(book);
    let clauses = book::clauses(book);
    required_length(variables, clauses) <= session.len()
        && header_passes(session, clauses)
        && trail_passes(session, variables)
        && justified(book, session)
        && cells_pass(book, session)
        && lists_pass(book, session)
        && conflict_passes(book, session)
}

// Whether the numbers are those of a book and of a session on it: refused by 11 or 12 where they are not.
#[tactic(auto, using(crate::proofs::ValidateLaws::no_book, crate::proofs::ValidateLaws::no_session, crate::proofs::ValidateLaws::validated))]
pub fn validate(book: &[u32], session: &[u32]) -> Result<(), Refusal>
    ensures { result ≡ checked (read_refusal book.now session.now) }
{
    if !book::well_formed(book) {
        return Err(Refusal::Book);
    }
    if !session_passes(book, session) {
        return Err(Refusal::Session);
    }
    Ok(())
}
