// The reasons of the implied literals.
ghost use Rattle.std.specs.Prelude.{◌≡◌, ◌<◌, true};
ghost use Rattle.book.specs.Formula.{literal_within, sound_clause};
ghost use Rattle.book.specs.Numbers.{formula_of};
ghost use Rattle.run.specs.Valid.{Justified};
ghost use Rattle.layout.specs.Layout.{held};
ghost use Rattle.validation.specs.Inner.Says.{Says};
ghost use Rattle.validation.specs.Inner.Places.{TrailPassed};
ghost use Rattle.validation.specs.Inner.Read.{read};
ghost use Rattle.validation.specs.Inner.Reasons.{Before, TruePlace, ImpliedPlace, ImpliedMarked};

use crate::places::ReadTrail;
use book::limits::MAX_VARIABLES;
use layout::offsets::{LENGTH, levels_at};
use layout::values::{clause, level_before};

// One mark for each place of the longest trail; places count from 1.
const PLACE_MARKS: usize = MAX_VARIABLES + 1;

impl ReadTrail<'_> {
    // The place of a true literal of a clause with only false ones before it, none where the first that is not false is open, or none is not false.
    #[tactic(auto, using(crate::proofs::places::Laws::sound_within))]
    fn true_place(self, clause: &[u32]) -> Option<usize>
        requires { sound_clause self.variables clause.now ≡ true }
        ensures { TruePlace (read self.entry) clause.now result }
    {
        for literal in clause {
            if let Some(place) = self.place_of(*literal) {
                return Some(place);
            }
            self.false_place(*literal)?;
        }
        None
    }

    // A literal stands at a place or is false before it.
    fn false_before(self, place: usize, literal: u32) -> bool
        requires place_value { 0 < place }
        requires literal_value { literal_within self.variables literal ≡ true }
        ensures { Says result (Before (read self.entry) place literal) }
    {
        self.place_of(literal) == Some(place)
            || self
                .false_place(literal)
                .is_some_and(|falsified| falsified < place)
    }

    // The place of the literal that a clause implies: its others are false before it. None where it implies none.
    fn implied_place(self, clause: &[u32]) -> Option<usize>
        requires { sound_clause self.variables clause.now ≡ true }
        ensures { ImpliedPlace (read self.entry) clause.now result }
    {
        let place = self.true_place(clause)?;
        clause
            .iter()
            .all(|literal| self.false_before(place, *literal))
            .then_some(place)
    }

    // Each implied literal, whose level is that of the place before it, is marked.
    fn implied_marked(self, marks: &[bool; PLACE_MARKS]) -> bool
        ensures { Says result (ImpliedMarked self.entry.variables self.entry.session.now marks.now) }
    {
        let levels = levels_at(self.variables);
        for i in 0..self.session[LENGTH] as usize {
            let implied = self.session[levels + i] == level_before(self.session, self.variables, i);
            if implied && !marks[i + 1] {
                return false;
            }
        }
        true
    }
}

// Each implied literal has a reason: a pass over the clauses marks the places that they imply, another one goes over the trail.
#[tactic(auto, using(crate::proofs::places::Laws::place_small, crate::proofs::places::Laws::passed_clause))]
pub(crate) fn justified(book: &[u32], session: &[u32]) -> bool
    requires { TrailPassed book.now session.now }
    ensures { Says result (Justified (formula_of book.now) (held (formula_of book.now) session.now).trail) }
{
    let trail = ReadTrail::new(book, session);
    let mut marks = [false; PLACE_MARKS];
    for c in 0..book::clauses(book) {
        if let Some(place) = trail.implied_place(clause(book, c)) {
            marks[place] = true;
        }
    }
    trail.implied_marked(&marks)
}
