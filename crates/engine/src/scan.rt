// The scan of one clause for a literal that is not false.
ghost use Rattle.std.specs.Prelude.{◌≡◌, List, ℕ, ◌≤◌, ◌<◌, length};
ghost use Rattle.book.specs.Formula.{variable_of};
ghost use Rattle.run.specs.Trail.{Entry, is_false};
ghost use Rattle.run.specs.Scan.{next, scan, watched};
ghost use Rattle.layout.specs.Values.{Reads};
ghost use Rattle.engine.specs.Inner.Scan.{ScanReady, scanned_in};

use layout::values::{Value, value_of};

// What a scan found: a position to watch, or none; and the checks that it made.
#[derive(Clone, Copy, Debug, PartialEq, Eq)]
pub struct Scan {
    pub found: Option<usize>,
    pub checks: u32,
}

// The position behind one, on the circle of the clause's positions.
#[tactic(auto, unfolding(run::specs::Scan::next))]
fn next_position(n: usize, position: usize) -> usize
    requires { position < n }
    ensures { result ≡ next n position }
{
    if position + 1 < n { position + 1 } else { 0 }
}

// Whether a position is one of the two watches.
#[tactic(auto, unfolding(run::specs::Scan::watched))]
fn is_watched(first: usize, second: usize, position: usize) -> bool
    ensures { (pointer : ℕ) → result ≡ watched (record { first = first; second = second; pointer = pointer }) position }
{
    position == first || position == second
}

// Whether a literal is false.
fn is_false(values: &[u32], literal: u32) -> bool
    requires { (2 ≤ literal) × (variable_of literal ≤ length values.now) }
    ensures { (trail : List Entry) → Reads values.now trail → result ≡ is_false trail literal }
{
    value_of(values, literal) == Value::False
}

// From the position behind the pointer on, once around: every unwatched position is one check, and the first that is not false ends it.
pub(crate) fn scan_clause(
    clause: &[u32],
    values: &[u32],
    first: usize,
    second: usize,
    pointer: usize,
) -> Scan
    requires { ScanReady clause.now values.now pointer }
    ensures { (trail : List Entry) → Reads values.now trail → scanned_in result ≡ scan trail clause.now (record { first = first; second = second; pointer = pointer }) }
{
    let mut position = next_position(clause.len(), pointer);
    let mut checks: u32 = 0;
    for _ in 0..clause.len() {
        if !is_watched(first, second, position) {
            checks += 1;
            if !is_false(values, clause[position]) {
                return Scan {
                    found: Some(position),
                    checks,
                };
            }
        }
        position = next_position(clause.len(), position);
    }
    Scan {
        found: None,
        checks,
    }
}
