// Definitions and laws on lists, numbers and tests that know nothing of clauses, and copying what fits.
#![tactic(auto)]

ghost use Rattle.std.specs.Prelude.{◌≡◌, length, take};
ghost use Rattle.base.specs.Lists.{copied};

use std::cmp::min;

// Copies the elements that fit to the front of `out`, and answers how many.
#[tactic(auto, unfolding(crate::specs::Lists::copied))]
pub fn copy_fitting<T: Copy>(source: &[T], out: &mut [T]) -> usize
    ensures value { result ≡ length (take (length out.old) source.now) }
    ensures out_after { out.new ≡ copied source.now out.old }
{
    let fitting = min(source.len(), out.len());
    for i in 0..fitting {
        out[i] = source[i];
    }
    fitting
}
