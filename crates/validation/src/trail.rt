// The validation of a lent trail: header, trail, levels and values.
ghost use Rattle.std.specs.Prelude.{ℕ, ◌≤◌, ◌<◌, get_or};
ghost use Rattle.layout.specs.Layout.{length_at, TrailFits};
ghost use Rattle.validation.specs.Inner.Says.{Says};
ghost use Rattle.validation.specs.Inner.Trail.{TrailGood, PlaceGood, PlaceFree, ValueGood};

use layout::offsets::{DECISIONS, LENGTH, TRAIL, levels_at, value_slot, values_at};
use layout::values::level_before;

// Whether a place of the trail holds a literal of the variables, at the level before it or one more, whose value says that place.
fn place_passes(session: &[u32], variables: usize, i: usize) -> bool
    requires { TrailFits variables session.now × (i < variables) }
    ensures { Says result (PlaceGood variables session.now i) }
{
    let literal = session[TRAIL + i];
    let level = session[levels_at(variables) + i];
    let before = level_before(session, variables, i);
    2 <= literal
        && literal as usize <= 2 * variables + 1
        && before <= level
        && level - before <= 1
        && session[value_slot(variables, literal)] as usize == 2 * (i + 1) + literal as usize % 2
}

// Whether each place of the trail does.
fn places_pass(session: &[u32], variables: usize, count: usize) -> bool
    requires { TrailFits variables session.now × (count ≤ variables) }
    ensures { Says result ((i : ℕ) → i < count → PlaceGood variables session.now i) }
{
    (0..count).all(|i| place_passes(session, variables, i))
}

// Whether nothing lies behind the end of the trail.
fn rest_passes(session: &[u32], variables: usize, count: usize) -> bool
    requires { TrailFits variables session.now × (count ≤ variables) }
    ensures { Says result ((i : ℕ) → count ≤ i → i < variables → PlaceFree variables session.now i) }
{
    let levels = levels_at(variables);
    (count..variables).all(|i| session[TRAIL + i] == 0 && session[levels + i] == 0)
}

// Whether a variable is open, or its value says a place of the trail that holds its literal.
fn value_passes(session: &[u32], variables: usize, x: usize) -> bool
    requires { TrailFits variables session.now × (get_or session.now length_at 0 ≤ variables) × (x < variables) }
    ensures { Says result (ValueGood variables session.now x) }
{
    let value = session[values_at(variables) + x];
    value == 0
        || (2 <= value
            && value / 2 <= session[LENGTH]
            && session[TRAIL + (value as usize / 2 - 1)] as usize
                == 2 * (x + 1) + value as usize % 2)
}

// Whether each variable does.
fn values_pass(session: &[u32], variables: usize) -> bool
    requires { TrailFits variables session.now × (get_or session.now length_at 0 ≤ variables) }
    ensures { Says result ((x : ℕ) → x < variables → ValueGood variables session.now x) }
{
    (0..variables).all(|x| value_passes(session, variables, x))
}

// Whether header, trail, levels and values are those of a trail.
pub(crate) fn trail_passes(session: &[u32], variables: usize) -> bool
    requires { (1 ≤ variables) × TrailFits variables session.now }
    ensures { Says result (TrailGood variables session.now) }
{
    let count = session[LENGTH] as usize;
    count <= variables
        && session[DECISIONS] == level_before(session, variables, count)
        && places_pass(session, variables, count)
        && rest_passes(session, variables, count)
        && values_pass(session, variables)
}
