// The opening of a session: the first watches and lists, the clauses of one literal.
ghost use Rattle.std.specs.Prelude.{◌≡◌, true, ℕ, ◌<◌, get_or};
ghost use Rattle.book.specs.Numbers.{variables_of, clauses_of, formula_of, well_formed};
ghost use Rattle.layout.specs.Layout.{SessionFits, required_length};
ghost use Rattle.layout.specs.Encodes.{Encodes};
ghost use Rattle.engine.specs.Engine.{Becomes};
ghost use Rattle.engine.specs.Inner.Opening.{WatchedFirst, Units, UnitDone};
ghost use Rattle.run.specs.Run as runs;

use crate::lists::push_front;
use crate::trail::assign;
use crate::visit::set_watch;
use layout::offsets::CONFLICT;
use layout::values::{Value, clause, literal_value};

// A clause of two literals or more watches positions 0 and 1, and its pointer is 1.
fn watch_clause(book: &[u32], session: &mut [u32], c: usize)
    requires { SessionFits book.now session.old × (c < clauses_of book.now) }
    ensures { WatchedFirst book.now session.old session.new c }
{
    let [first, second, ..] = *clause(book, c) else {
        return;
    };
    let node = (2 * c) as u32;
    set_watch(book, session, node + 2, 1);
    push_front(book, session, first, node + 1);
    push_front(book, session, second, node + 2);
}

// The first watches of all clauses, in book order.
pub(crate) fn watch_all(book: &[u32], session: &mut [u32])
    requires { SessionFits book.now session.old × ((i : ℕ) → i < required_length (variables_of book.now) (clauses_of book.now) → get_or session.old i 0 ≡ 0) }
    ensures { Becomes book.now session.old session.new (runs.fresh (formula_of book.now)) }
{
    for c in 0..book::clauses(book) {
        watch_clause(book, session, c);
    }
}

// A clause of one literal implies it. Answers whether the literal is false, which is a conflict.
fn assign_unit(book: &[u32], session: &mut [u32], c: usize) -> bool
    requires { Units book.now session.old c × (c < clauses_of book.now) }
    ensures { (at : Units book.now session.old c) → UnitDone book.now session.old session.new c at.run result }
{
    let [literal] = *clause(book, c) else {
        return false;
    };
    let variables = book::variables(book);
    match literal_value(session, variables, literal) {
        Value::True => false,
        Value::False => {
            session[CONFLICT] = c as u32 + 1;
            true
        }
        Value::Open => {
            assign(session, variables, literal, 0);
            false
        }
    }
}

// The clauses of one literal, in book order; a conflict ends it.
pub(crate) fn assign_units(book: &[u32], session: &mut [u32])
    requires { (well_formed book.now ≡ true) × Encodes (formula_of book.now) session.old (runs.fresh (formula_of book.now)) }
    ensures { Becomes book.now session.old session.new (runs.assign_units 0 (formula_of book.now).clauses (runs.fresh (formula_of book.now))) }
{
    for c in 0..book::clauses(book) {
        if assign_unit(book, session, c) {
            return;
        }
    }
}
