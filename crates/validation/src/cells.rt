// The validation of watches and pointers.
ghost use Rattle.std.specs.Prelude.{◌≡◌};
ghost use Rattle.book.specs.Numbers.{formula_of};
ghost use Rattle.layout.specs.Layout.{SessionFits};
ghost use Rattle.validation.specs.Validation.{is_watching};
ghost use Rattle.validation.specs.Inner.Says.{Says};
ghost use Rattle.validation.specs.Inner.Cells.{CellsGood};

use layout::offsets::{pointers_at, watches_at};
use layout::values::clause;

// The watches and the pointer of a clause of n literals.
#[tactic(auto, unfolding(crate::specs::Validation::is_watching))]
fn cell_passes(n: usize, first: u32, second: u32, pointer: u32) -> bool
    ensures { result ≡ is_watching n (record { first = first; second = second; pointer = pointer }) }
{
    if n < 2 {
        return first == 0 && second == 0 && pointer == 0;
    }
    (first as usize) < n
        && (second as usize) < n
        && first != second
        && (pointer == first || pointer == second)
}

// The watches and pointers of all clauses.
#[tactic(auto, using(book::proofs::WellFormedLaws::well_formed_limited))]
pub(crate) fn cells_pass(book: &[u32], session: &[u32]) -> bool
    requires { SessionFits book.now session.now }
    ensures { Says result (CellsGood (formula_of book.now) session.now) }
{
    let variables = book::variables(book);
    let clauses = book::clauses(book);
    let watches = watches_at(variables);
    let pointers = pointers_at(variables, clauses);
    (0..clauses).all(|c| {
        cell_passes(
            clause(book, c).len(),
            session[watches + 2 * c],
            session[watches + 2 * c + 1],
            session[pointers + c],
        )
    })
}
