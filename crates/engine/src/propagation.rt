// Propagation: the trail literals that are not handled yet, each with the watch list of its opposite.
ghost use Rattle.book.specs.Numbers.{formula_of};
ghost use Rattle.engine.specs.Inner.Propagation.{Propagating};
ghost use Rattle.engine.specs.Engine.{Becomes};
ghost use Rattle.run.specs.Run as runs;

use crate::lists;
use crate::visit::visit_clause;
use layout::offsets::{CONFLICT, LENGTH, TRAIL};
use layout::values::opposite;

// Handles the trail literals behind the first `handled` ones, in trail order, and those that join it meanwhile. A conflict ends it, whatever
// is unread.
pub(crate) fn propagate(book: &[u32], session: &mut [u32], handled: usize)
    requires { Propagating book.now session.old handled }
    ensures { (at : Propagating book.now session.old handled) → Becomes book.now session.old session.new (runs.propagate (formula_of book.now) handled at.run) }
{
    if session[CONFLICT] != 0 {
        return;
    }
    let mut at = handled;
    'propagating: while at < session[LENGTH] as usize {
        let literal = session[TRAIL + at];
        let mut walk = lists::first(book, session, opposite(literal));
        while walk.node != 0 {
            let Some(next) = visit_clause(book, session, walk) else {
                break 'propagating;
            };
            walk = next;
        }
        at += 1;
    }
}
