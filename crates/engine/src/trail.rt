// The trail of a session: a literal that joins it, levels that leave it.
ghost use Rattle.std.specs.Prelude.{◌≡◌, List, ◌≤◌, ◌<◌, get_or};
ghost use Rattle.book.specs.Formula.{variable_of};
ghost use Rattle.layout.specs.Encodes.{TrailHeld};
ghost use Rattle.layout.specs.Layout.{TrailFits, length_at};
ghost use Rattle.engine.specs.Inner.Trail.{unassign_nums, Last, Cutting, assign_nums, SameBeside};
ghost use Rattle.run.specs.Trail as trails;

use layout::offsets::{DECISIONS, LENGTH, TRAIL, levels_at, value_slot};
use layout::values::{level_before, parity};

// Puts a literal on the trail, at a level.
pub(crate) fn assign(session: &mut [u32], variables: usize, literal: u32, level: u32)
    requires { TrailFits variables session.old × (get_or session.old length_at 0 < variables) × (2 ≤ literal) × (variable_of literal ≤ variables) }
    ensures { session.new ≡ assign_nums variables session.old literal level }
{
    let count = session[LENGTH];
    let at = count as usize;
    session[TRAIL + at] = literal;
    session[levels_at(variables) + at] = level;
    session[value_slot(variables, literal)] = 2 * (count + 1) + parity(literal);
    session[LENGTH] = count + 1;
}

// Takes the last literal off the trail.
fn unassign(session: &mut [u32], variables: usize)
    requires { TrailFits variables session.old × Last variables session.old }
    ensures { session.new ≡ unassign_nums variables session.old }
{
    let last = session[LENGTH] - 1;
    let at = last as usize;
    let literal = session[TRAIL + at];
    session[DECISIONS] = level_before(session, variables, at);
    session[LENGTH] = last;
    session[TRAIL + at] = 0;
    session[levels_at(variables) + at] = 0;
    session[value_slot(variables, literal)] = 0;
}

// Takes the last k levels off the trail.
pub(crate) fn cut_levels(session: &mut [u32], variables: usize, k: u32)
    requires { TrailFits variables session.old × ((trail : List trails.Entry) × Cutting variables session.old k trail) }
    ensures trail_held { (trail : List trails.Entry) → Cutting variables session.old k trail → TrailHeld variables session.new (trails.cut k trail) }
    ensures same_beside { SameBeside variables session.old session.new }
{
    let target = session[DECISIONS] - k;
    while session[DECISIONS] > target {
        unassign(session, variables);
    }
}
