// The watch lists of a session: a walk along one, and a clause that leaves or joins one. No other module of the engine knows heads and links.
ghost use Rattle.std.specs.Prelude.{◌+◌, ◌*◌, ◌≤◌};
ghost use Rattle.book.specs.Numbers.{variables_of, clauses_of};
ghost use Rattle.layout.specs.Layout.{Fits};
ghost use Rattle.engine.specs.Inner.Lists.{Begun, KeptOn, Standing, TakenOut, PushedFront, linked};

use layout::offsets::{head_slot, link_slot};

// Where a walk along a watch list stands: the node that is next, 0 at the end, and the slot that holds it.
#[derive(Clone, Copy, Debug, PartialEq, Eq)]
pub struct Walk {
    pub node: u32,
    pub slot: usize,
}

// The walk at the start of a literal's list.
pub(crate) fn first(book: &[u32], session: &[u32], literal: u32) -> Walk
    requires { Fits (variables_of book.now) (clauses_of book.now) session.now × (2 ≤ literal) × (literal ≤ 2 * variables_of book.now + 1) }
    ensures { Begun linked (variables_of book.now) (clauses_of book.now) session.now literal result }
{
    let slot = head_slot(book::variables(book), book::clauses(book), literal);
    let node = session[slot];
    Walk { node, slot }
}

// The clause stays in the list, and the walk goes on behind it.
pub(crate) fn keep(book: &[u32], session: &[u32], walk: Walk) -> Walk
    requires { Fits (variables_of book.now) (clauses_of book.now) session.now × Standing (variables_of book.now) (clauses_of book.now) walk }
    ensures { KeptOn linked (variables_of book.now) (clauses_of book.now) session.now walk result }
{
    let slot = link_slot(book::variables(book), book::clauses(book), walk.node);
    let node = session[slot];
    Walk { node, slot }
}

// The clause leaves the list, and the walk goes on in its place.
pub(crate) fn take_out(book: &[u32], session: &mut [u32], walk: Walk) -> Walk
    requires { Fits (variables_of book.now) (clauses_of book.now) session.old × Standing (variables_of book.now) (clauses_of book.now) walk }
    ensures { TakenOut linked (variables_of book.now) (clauses_of book.now) session.old session.new walk result }
{
    let node = session[link_slot(book::variables(book), book::clauses(book), walk.node)];
    session[walk.slot] = node;
    Walk { node, ..walk }
}

// The clause of a node goes to the front of a literal's list.
pub(crate) fn push_front(book: &[u32], session: &mut [u32], literal: u32, node: u32)
    requires { Fits (variables_of book.now) (clauses_of book.now) session.old × (2 ≤ literal) × (literal ≤ 2 * variables_of book.now + 1) × (1 ≤ node) × (node ≤ 2 * clauses_of book.now) }
    ensures { PushedFront linked (variables_of book.now) (clauses_of book.now) session.old session.new literal node }
{
    let variables = book::variables(book);
    let clauses = book::clauses(book);
    let head = head_slot(variables, clauses, literal);
    let link = link_slot(variables, clauses, node);
    session[link] = session[head];
    session[head] = node;
}
