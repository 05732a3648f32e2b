// One clause of the list that is read.
ghost use Rattle.std.specs.Prelude.{◌≡◌, ◌*◌, ◌≤◌, ◌<◌, length};
ghost use Rattle.book.specs.Formula.{max_clauses};
ghost use Rattle.book.specs.Numbers.{variables_of, clauses_of, formula_of};
ghost use Rattle.run.specs.Scan.{scan};
ghost use Rattle.run.specs.Run.{clause_of, cell_of};
ghost use Rattle.layout.specs.Layout.{Fits};
ghost use Rattle.engine.specs.Inner.Scan.{scanned_in};
ghost use Rattle.engine.specs.Inner.Visit.{Visiting, Visited, other_node, count_nums, watch_nums, Scannable, Seeking};

use crate::lists::{Walk, keep, push_front, take_out};
use crate::scan::{Scan, scan_clause};
use crate::trail::assign;
use layout::offsets::{
    CONFLICT, DECISIONS, checks_at, clause_of_node, pointers_at, values_at, watch_slot, watches_at,
};
use layout::values::{Value, clause, literal_value, parity};

// The other node of a clause.
#[tactic(auto, unfolding(crate::specs::Inner::Visit::other_node))]
fn other_node(node: u32) -> u32
    requires { (1 ≤ node) × (node ≤ 2 * max_clauses) }
    ensures { result ≡ other_node node }
{
    if parity(node) == 1 {
        node + 1
    } else {
        node - 1
    }
}

// Adds checks to the count at a slot, which stops at its largest value.
fn add_checks(session: &mut [u32], slot: usize, made: u32)
    requires { slot < length session.old }
    ensures { session.new ≡ count_nums session.old slot made }
{
    session[slot] = session[slot].saturating_add(made);
}

// Stores the position of a node's watch, and the pointer with it.
pub(crate) fn set_watch(book: &[u32], session: &mut [u32], node: u32, position: u32)
    requires { Fits (variables_of book.now) (clauses_of book.now) session.old × (1 ≤ node) × (node ≤ 2 * clauses_of book.now) }
    ensures { session.new ≡ watch_nums (variables_of book.now) (clauses_of book.now) session.old node position }
{
    let variables = book::variables(book);
    let pointers = pointers_at(variables, book::clauses(book));
    session[watch_slot(variables, node)] = position;
    session[pointers + clause_of_node(node)] = position;
}

// The scan of clause c.
fn scan_at(book: &[u32], session: &[u32], c: usize) -> Scan
    requires { Scannable book.now session.now c }
    ensures { (scannable : Scannable book.now session.now c) → scanned_in result ≡ scan scannable.run.trail (clause_of (formula_of book.now) c) (cell_of scannable.run c) }
{
    let variables = book::variables(book);
    let values = values_at(variables);
    let watches = watches_at(variables);
    let pointers = pointers_at(variables, book::clauses(book));
    let first = session[watches + 2 * c] as usize;
    let second = session[watches + 2 * c + 1] as usize;
    let pointer = session[pointers + c] as usize;
    scan_clause(
        clause(book, c),
        &session[values..watches],
        first,
        second,
        pointer,
    )
}

// The search for a new watch of a clause whose other watch is not true. Where there is none, an open other watch is implied, and a false
// one is a conflict, the answer none; beside a true one, which is not asked for, the clause would stay.
fn seek(book: &[u32], session: &mut [u32], walk: Walk, other: u32, value: Value) -> Option<Walk>
    requires { Seeking book.now session.old walk other value }
    ensures { (seeking : Seeking book.now session.old walk other value) → Visited book.now session.old session.new seeking.at result }
{
    let variables = book::variables(book);
    let c = clause_of_node(walk.node);
    let count = checks_at(variables, book::clauses(book)) + c;
    let scan = scan_at(book, session, c);
    if let Some(position) = scan.found {
        let literal = clause(book, c)[position];
        let next = take_out(book, session, walk);
        set_watch(book, session, walk.node, position as u32);
        push_front(book, session, literal, walk.node);
        add_checks(session, count, scan.checks);
        return Some(next);
    }
    add_checks(session, count, scan.checks);
    match value {
        Value::True => Some(keep(book, session, walk)),
        Value::False => {
            session[CONFLICT] = c as u32 + 1;
            None
        }
        Value::Open => {
            let level = session[DECISIONS];
            assign(session, variables, other, level);
            Some(keep(book, session, walk))
        }
    }
}

// Visits the clause at which a walk along the list of a literal that became false stands: it stays where its other watch is true, else it
// seeks a new watch. What it leaves is the walk behind the clause, or none: a conflict.
pub(crate) fn visit_clause(book: &[u32], session: &mut [u32], walk: Walk) -> Option<Walk>
    requires { Visiting book.now session.old walk }
    ensures { (at : Visiting book.now session.old walk) → Visited book.now session.old session.new at result }
{
    let variables = book::variables(book);
    let watch = session[watch_slot(variables, other_node(walk.node))] as usize;
    let other = clause(book, clause_of_node(walk.node))[watch];
    let value = literal_value(session, variables, other);
    let satisfied = value == Value::True;
    if satisfied {
        return Some(keep(book, session, walk));
    }
    seek(book, session, walk, other, value)
}
