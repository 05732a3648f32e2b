// A trail that has passed, and the places of its literals.
ghost use Rattle.std.specs.Prelude.{◌≡◌, true};
ghost use Rattle.book.specs.Formula.{literal_within};
ghost use Rattle.book.specs.Numbers.{variables_of};
ghost use Rattle.run.specs.Trail.{opposite};
ghost use Rattle.validation.specs.Inner.Places.{PlaceOf, Readable, TrailPassed};

use layout::offsets::value_slot;
use layout::values::opposite;

// The trail of a session whose trail has passed.
#[derive(Clone, Copy)]
pub(crate) struct ReadTrail<'a> {
    pub(crate) session: &'a [u32],
    pub(crate) variables: usize,
    ghost readable: { Readable variables session.now },
}

impl<'a> ReadTrail<'a> {
    ghost use Rattle.validation.specs.Inner.Read.{read};

    // The trail of a session on its book.
    #[tactic(auto, using(crate::proofs::places::Laws::passed_readable))]
    pub(crate) fn new(book: &[u32], session: &'a [u32]) -> Self
        requires { TrailPassed book.now session.now }
        ensures session { result.session.now ≡ session.now }
        ensures variables { result.variables ≡ variables_of book.now }
    {
        ReadTrail {
            session,
            variables: book::variables(book),
        }
    }

    // The place of a literal on the trail, none where it is not true.
    #[tactic(auto, using(book::proofs::SoundLaws::literal_parts))]
    pub(crate) fn place_of(self, literal: u32) -> Option<usize>
        requires { literal_within self.variables literal ≡ true }
        ensures { PlaceOf (read self.entry) literal result }
    {
        let entry = self.session[value_slot(self.variables, literal)];
        let place = (entry / 2) as usize;
        (place != 0 && entry % 2 == literal % 2).then_some(place)
    }

    // The place of the opposite of a literal, none where the literal is not false.
    #[tactic(auto, using(book::proofs::SoundLaws::literal_parts, crate::proofs::places::Laws::opposite_within))]
    pub(crate) fn false_place(self, literal: u32) -> Option<usize>
        requires { literal_within self.variables literal ≡ true }
        ensures { PlaceOf (read self.entry) (opposite literal) result }
    {
        self.place_of(opposite(literal))
    }
}
