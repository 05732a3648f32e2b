// The validation of watch lists, on any numbers.
ghost use Rattle.std.specs.Prelude.{Some, false, ◌≡◌, ℕ, ◌*◌, ◌+◌, ◌≤◌, get_or};
ghost use Rattle.book.specs.Numbers.{variables_of, clauses_of, formula_of};
ghost use Rattle.validation.specs.Inner.Says.{Says};
ghost use Rattle.validation.specs.Inner.Lists.{ListsGood, owner_in, Looking, ListSays, AllSays, NodeGood, NodesGood};

use book::limits::MAX_CLAUSES;
use layout::offsets::{clause_of_node, head_slot, link_slot, watch_slot};
use layout::values::clause;

// One more than the nodes of the largest formula.
const NODE_MARKS: usize = 2 * MAX_CLAUSES + 1;

// The literal whose list a node belongs to; none where its clause has no watches.
#[tactic(auto, using(crate::proofs::lists::Laws::owner_none, crate::proofs::lists::Laws::owner_some, crate::proofs::lists::Laws::position_within))]
fn owner(book: &[u32], session: &[u32], node: u32) -> Option<u32>
    requires looking { Looking book.now session.now }
    requires le_node { (1 ≤ node) × (node ≤ 2 * clauses_of book.now) }
    ensures { result ≡ owner_in book.now session.now node }
{
    let clause = clause(book, clause_of_node(node));
    if clause.len() < 2 {
        return None;
    }
    let position = session[watch_slot(book::variables(book), node)];
    Some(clause[position as usize])
}

// The list of one literal: every node is one of the literal's and is met once. It is marked then.
#[tactic(auto, using(crate::proofs::lists::Laws::marks_fewer, crate::proofs::lists::Laws::walking_start, crate::proofs::lists::Laws::walking_end, crate::proofs::lists::Laws::list_walk_more))]
fn list_passes(book: &[u32], session: &[u32], marks: &mut [bool; NODE_MARKS], literal: u32) -> bool
    requires looking { Looking book.now session.now }
    requires le_literal { (2 ≤ literal) × (literal ≤ 2 * variables_of book.now + 1) }
    requires by_index { (n : ℕ) → owner_in book.now session.now n ≡ Some literal → get_or marks.old n false ≡ false }
    ensures { ListSays book.now session.now marks.old marks.new literal result }
{
    let variables = book::variables(book);
    let clauses = book::clauses(book);
    let mut node = session[head_slot(variables, clauses, literal)];
    while node != 0 {
        let place = node as usize;
        if place > 2 * clauses || owner(book, session, node) != Some(literal) || marks[place] {
            return false;
        }
        marks[place] = true;
        node = session[link_slot(variables, clauses, node)];
    }
    true
}

// The lists of all literals.
#[tactic(auto, using(crate::proofs::lists::Laws::through_more, crate::proofs::lists::Laws::through_end))]
fn all_lists_pass(book: &[u32], session: &[u32], marks: &mut [bool; NODE_MARKS]) -> bool
    requires looking { Looking book.now session.now }
    requires by_index { (n : ℕ) → get_or marks.old n false ≡ false }
    ensures { AllSays book.now session.now marks.new result }
{
    let last = 2 * book::variables(book) as u32 + 1;
    for literal in 2..=last {
        if !list_passes(book, session, marks, literal) {
            return false;
        }
    }
    true
}

// A node of a watch is marked, and the link of any other is 0.
fn node_passes(book: &[u32], session: &[u32], marks: &[bool; NODE_MARKS], node: u32) -> bool
    requires looking { Looking book.now session.now }
    requires le_node { (1 ≤ node) × (node ≤ 2 * clauses_of book.now) }
    ensures { Says result (NodeGood book.now session.now marks.now node) }
{
    match owner(book, session, node) {
        Some(_) => marks[node as usize],
        None => session[link_slot(book::variables(book), book::clauses(book), node)] == 0,
    }
}

// The nodes of all watches are marked, and the links of the others are 0.
fn nodes_pass(book: &[u32], session: &[u32], marks: &[bool; NODE_MARKS]) -> bool
    requires { Looking book.now session.now }
    ensures { Says result (NodesGood book.now session.now marks.now) }
{
    let last = 2 * book::clauses(book) as u32;
    for node in 1..=last {
        if !node_passes(book, session, marks, node) {
            return false;
        }
    }
    true
}

// Heads and links: the lists of all literals hold the nodes of all watches.
#[tactic(auto, using(crate::proofs::lists::GoodLaws::lists_refused, crate::proofs::lists::GoodLaws::lists_answered))]
pub(crate) fn lists_pass(book: &[u32], session: &[u32]) -> bool
    requires { Looking book.now session.now }
    ensures { Says result (ListsGood (formula_of book.now) session.now) }
{
    let mut marks = [false; NODE_MARKS];
    all_lists_pass(book, session, &mut marks) && nodes_pass(book, session, &marks)
}
