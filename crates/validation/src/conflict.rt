// The conflict clause: it has a literal, and every one is false.
ghost use Rattle.std.specs.Prelude.{◌≡◌, true, ℕ, ◌<◌};
ghost use Rattle.base.specs.Lists.{member};
ghost use Rattle.book.specs.Formula.{sound_clause};
ghost use Rattle.book.specs.Numbers.{clauses_of, formula_of};
ghost use Rattle.run.specs.Trail.{is_false};
ghost use Rattle.validation.specs.Inner.Says.{Says};
ghost use Rattle.validation.specs.Inner.Conflict.{AllFalse};
ghost use Rattle.validation.specs.Inner.Places.{TrailPassed};
ghost use Rattle.validation.specs.Inner.Read.{read};

use crate::places::ReadTrail;
use layout::values::clause;

impl ReadTrail<'_> {
    // Every literal of a clause is false.
    fn all_false(self, clause: &[u32]) -> bool
        requires { sound_clause self.variables clause.now ≡ true }
        ensures { Says result ((m : ℕ) → member m clause.now ≡ true → is_false (read self.entry) m ≡ true) }
    {
        clause
            .iter()
            .all(|literal| self.false_place(*literal).is_some())
    }
}

// Clause c has a literal, and every one is false.
#[tactic(auto, using(crate::proofs::places::Laws::passed_clause))]
pub(crate) fn conflict_false(book: &[u32], session: &[u32], c: usize) -> bool
    requires trail_passed { TrailPassed book.now session.now }
    requires c_bound { c < clauses_of book.now }
    ensures { Says result (AllFalse (formula_of book.now) session.now c) }
{
    let literals = clause(book, c);
    !literals.is_empty() && ReadTrail::new(book, session).all_false(literals)
}
