// A ceiling of what the clauses of a book cost in one period, from the book numbers.
ghost use Rattle.std.specs.Prelude.{◌≡◌, true, ◌<◌};
ghost use Rattle.book.specs.Numbers.{clauses_of, clause_at, formula_of, well_formed};
ghost use Rattle.run.specs.Ceiling.{clause_worst};
ghost use Rattle.run.specs.Ceiling as ceilings;

use crate::values::clause;

// The ceiling of clause c, from 0: 2 × n − 3 of n ≥ 2 literals, else 0.
fn clause_worst(book: &[u32], c: usize) -> usize
    requires book_value { well_formed book.now ≡ true }
    requires c_bound { c < clauses_of book.now }
    ensures { result ≡ clause_worst (clause_at book.now c) }
{
    let literals = clause(book, c).len();
    if literals < 2 {
        return 0;
    }
    2 * literals - 3
}

// W: the sum over all clauses.
pub fn worst(book: &[u32]) -> u32
    requires { well_formed book.now ≡ true }
    ensures { result ≡ ceilings.worst (formula_of book.now) }
{
    let mut sum = 0;
    for c in 0..book::clauses(book) {
        sum += clause_worst(book, c);
    }
    sum as u32
}
