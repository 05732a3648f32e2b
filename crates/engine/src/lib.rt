// The steps of a run on the numbers of a session that are known to hold it: opening, an accepted decision, an accepted backtrack, a fixing.
#![tactic(auto)]

mod lists;
mod opening;
mod propagation;
mod scan;
mod trail;
mod visit;

ghost use Rattle.std.specs.Prelude.{◌≡◌};
ghost use Rattle.book.specs.Numbers.{formula_of};
ghost use Rattle.layout.specs.Layout.{SessionFits};
ghost use Rattle.engine.specs.Engine.{Becomes, Holding};
ghost use Rattle.run.specs.Run.{decide, backtrack, fix};
ghost use Rattle.run.specs.Calls.{decide_refusal, backtrack_refusal};
ghost use Rattle.run.specs.Run as runs;

use crate::propagation::propagate;
use crate::trail::{assign, cut_levels};
use layout::offsets::{BACKTRACKS, CONFLICT, DECISIONS, FIXED, LENGTH, required_length};

// Opens a session, whatever its numbers were.
pub fn open(book: &[u32], session: &mut [u32])
    requires { SessionFits book.now session.old }
    ensures { Becomes book.now session.old session.new (runs.open_run (formula_of book.now)) }
{
    let needed = required_length(book::variables(book), book::clauses(book));
    session[0..needed].fill(0);
    opening::watch_all(book, session);
    opening::assign_units(book, session);
    propagate(book, session, 0);
}

// The literal joins the trail as a new level, then propagation.
pub fn decide(book: &[u32], session: &mut [u32], literal: u32)
    requires { (at : Holding book.now session.old) × (decide_refusal (formula_of book.now) literal at.run ≡ 0) }
    ensures { (at : Holding book.now session.old) → decide_refusal (formula_of book.now) literal at.run ≡ 0 → Becomes book.now session.old session.new (decide (formula_of book.now) literal at.run) }
{
    let variables = book::variables(book);
    let count = session[LENGTH] as usize;
    let level = session[DECISIONS] + 1;
    session[DECISIONS] = level;
    assign(session, variables, literal, level);
    propagate(book, session, count);
}

// The last k levels leave the trail, and a conflict is over. Watches, pointers and lists stay.
pub fn backtrack(book: &[u32], session: &mut [u32], k: u32)
    requires { (at : Holding book.now session.old) × (backtrack_refusal k at.run ≡ 0) }
    ensures { (at : Holding book.now session.old) → backtrack_refusal k at.run ≡ 0 → Becomes book.now session.old session.new (backtrack k at.run) }
{
    cut_levels(session, book::variables(book), k);
    session[CONFLICT] = 0;
    session[BACKTRACKS] += 1;
}

// The first f decisions in force are fixed. Nothing else changes.
pub fn fix(book: &[u32], session: &mut [u32], f: u32)
    requires { Holding book.now session.old }
    ensures { (at : Holding book.now session.old) → Becomes book.now session.old session.new (fix f at.run) }
{
    session[FIXED] = f;
}
