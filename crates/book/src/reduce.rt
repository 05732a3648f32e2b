// A clause as read from the clause as written: a repeated literal stands once, and a clause with a variable both ways has no literals.
ghost use Rattle.std.specs.Prelude.{◌+◌, ◌≤◌, true, [], ◌++◌, ◌≡◌, leb, length, take};
ghost use Rattle.base.specs.Lists.{all, member};
ghost use Rattle.book.specs.Formula.{variable_of, max_variables, max_book};
ghost use Rattle.book.specs.Reading.{as_read};
ghost use Rattle.book.specs.Inner.Marks.{Bounded, Marked};

use crate::limits::{MAX_BOOK, VARIABLE_MARKS};
use crate::marks::mark;

// Writes a clause as read to `out` from `at` on, and answers where it ends. No variable bears the tag before.
pub(crate) fn put_clause(
    clause: &[u32],
    at: usize,
    tag: u16,
    marks: &mut [u16; VARIABLE_MARKS],
    out: &mut [u32; MAX_BOOK],
) -> usize
    requires clause_value { all (λ l. leb (variable_of l) max_variables) clause.now ≡ true }
    requires marked { Marked marks.old tag [] }
    requires out_len { (length out.old ≡ max_book) × (at + length clause.now ≤ max_book) }
    ensures value { result ≡ at + length (as_read clause.now) }
    ensures out_after { take result out.new ≡ take at out.old ++ as_read clause.now }
    ensures out_len_2 { (length out.new ≡ max_book) × Bounded marks.new tag }
{
    let mut end = at;
    for &l in clause {
        if !mark(marks, l as usize / 2, tag) {
            out[end] = l;
            end += 1;
        } else if !out[at..end].contains(&l) {
            return at;
        }
    }
    end
}
