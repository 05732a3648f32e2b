// Clauses of one literal and watches: whether propagation has come to its end.
ghost use Rattle.std.specs.Prelude.{◌≡◌, true, ◌≤◌, ◌<◌, length};
ghost use Rattle.book.specs.Formula.{literal_within, sound_clause};
ghost use Rattle.book.specs.Numbers.{formula_of};
ghost use Rattle.run.specs.Progress.{Guard};
ghost use Rattle.validation.specs.Inner.Says.{Says};
ghost use Rattle.validation.specs.Inner.Cells.{CellsGood};
ghost use Rattle.validation.specs.Inner.Fixpoint.{FixpointOn, ClauseFixpoint, LevelOf};
ghost use Rattle.validation.specs.Inner.Places.{TrailPassed};
ghost use Rattle.validation.specs.Inner.Read.{read_on};

use crate::places::ReadTrail;
use layout::offsets::{DECISIONS, levels_at, watches_at};
use layout::values::{clause, opposite};

impl ReadTrail<'_> {
    // The level of a true literal, none where the literal is not true. `below` leaves the top level out.
    #[tactic(auto, using(crate::proofs::places::Laws::place_small))]
    fn level_of(self, below: bool, literal: u32) -> Option<u32>
        requires { literal_within self.variables literal ≡ true }
        ensures { LevelOf (read_on self.entry below) literal result }
    {
        let place = self.place_of(literal)?;
        let level = self.session[levels_at(self.variables) + (place - 1)];
        if below && level == self.session[DECISIONS] {
            return None;
        }
        Some(level)
    }

    // Where the literal a is false, b is true at a level not above.
    #[tactic(auto, using(book::proofs::SoundLaws::literal_parts, crate::proofs::places::Laws::opposite_within))]
    fn guards(self, below: bool, a: u32, b: u32) -> bool
        requires a_value { literal_within self.variables a ≡ true }
        requires b_value { literal_within self.variables b ≡ true }
        ensures { Says result (Guard (read_on self.entry below) (length (read_on self.entry below)) a b) }
    {
        let Some(against) = self.level_of(below, opposite(a)) else {
            return true;
        };
        let Some(guard) = self.level_of(below, b) else {
            return false;
        };
        guard <= against
    }

    // A clause of one literal is true at level 0; the watches of a longer one hold.
    #[tactic(auto, using(crate::proofs::places::Laws::sound_within))]
    fn clause_fixpoint(self, below: bool, clause: &[u32], first: usize, second: usize) -> bool
        requires clause_value { sound_clause self.variables clause.now ≡ true }
        requires first_in_bounds { 2 ≤ length clause.now → (first < length clause.now) × (second < length clause.now) }
        ensures { Says result (ClauseFixpoint (read_on self.entry below) clause.now first second) }
    {
        match clause {
            [literal] => self.level_of(below, *literal) == Some(0),
            [_, _, ..] => {
                let (a, b) = (clause[first], clause[second]);
                self.guards(below, a, b) && self.guards(below, b, a)
            }
            _ => true,
        }
    }
}

// Every clause is at the fixpoint on the trail, or on the trail without its top level.
#[tactic(auto, using(crate::proofs::places::Laws::passed_clause))]
pub(crate) fn fixpoint(book: &[u32], session: &[u32], below: bool) -> bool
    requires trail_passed { TrailPassed book.now session.now }
    requires cells_good { CellsGood (formula_of book.now) session.now }
    ensures { Says result (FixpointOn (formula_of book.now) session.now below) }
{
    let trail = ReadTrail::new(book, session);
    let watches = watches_at(trail.variables);
    for c in 0..book::clauses(book) {
        let first = session[watches + 2 * c] as usize;
        let second = session[watches + 2 * c + 1] as usize;
        if !trail.clause_fixpoint(below, clause(book, c), first, second) {
            return false;
        }
    }
    true
}
