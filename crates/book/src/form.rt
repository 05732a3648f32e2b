// The form of book numbers: V, C, L, C + 1 starts, L literals.
ghost use Rattle.std.specs.Prelude.{◌+◌, ◌≤◌, ◌<◌, length, get_or, [], ◌≡◌};
ghost use Rattle.base.specs.Lists.{all};
ghost use Rattle.book.specs.Inner.Form.{Parted};
ghost use Rattle.book.specs.Formula.{max_variables, max_clauses, sound_clause};
ghost use Rattle.book.specs.Inner.Marks.{Bounded, Marked};
ghost use Rattle.book.specs.Numbers.{variables_of, clauses_of, literals_of, clause_at, clauses_from, rising, well_formed};

use crate::limits::{MAX_CLAUSE, MAX_CLAUSES, MAX_LITERALS, MAX_VARIABLES, VARIABLE_MARKS};
use crate::marks::mark;

// The number at a place, 0 where there is none.
fn number_at(book: &[u32], place: usize) -> usize
    ensures { result ≡ get_or book.now place 0 }
{
    book.get(place).copied().unwrap_or(0) as usize
}

// V, the number of variables.
pub fn variables(book: &[u32]) -> usize
    ensures { result ≡ variables_of book.now }
{
    number_at(book, 0)
}

// C, the number of clauses.
pub fn clauses(book: &[u32]) -> usize
    ensures { result ≡ clauses_of book.now }
{
    number_at(book, 1)
}

// L, the number of literals.
pub fn literals(book: &[u32]) -> usize
    ensures { result ≡ literals_of book.now }
{
    number_at(book, 2)
}

// None of the starts is above the next one.
fn starts_rise(book: &[u32], clauses: usize) -> bool
    requires { clauses + 4 ≤ length book.now }
    ensures { result ≡ rising book.now 0 clauses }
{
    book[3..clauses + 4].is_sorted_by(|start, next| start <= next)
}

// The literals of clause c.
fn clause(book: &[u32], clauses: usize, c: usize) -> &[u32]
    requires parted { Parted book.now }
    requires clauses_value { clauses ≡ clauses_of book.now }
    requires c_bound { c < clauses }
    ensures { result.now ≡ clause_at book.now c }
{
    let start = clauses + 4 + book[3 + c] as usize;
    let end = clauses + 4 + book[4 + c] as usize;
    &book[start..end]
}

// The clause has at most 255 literals of the V variables, no variable twice. No variable bears the tag before.
fn clause_sound(
    clause: &[u32],
    variables: usize,
    tag: u16,
    marks: &mut [u16; VARIABLE_MARKS],
) -> bool
    requires variables_le_max_variables { variables ≤ max_variables }
    requires marked { Marked marks.old tag [] }
    ensures value { result ≡ sound_clause variables clause.now }
    ensures bounded { Bounded marks.new tag }
{
    if clause.len() > MAX_CLAUSE {
        return false;
    }
    for &l in clause {
        let literal = l as usize;
        if !(2..=2 * variables + 1).contains(&literal) || mark(marks, literal / 2, tag) {
            return false;
        }
    }
    true
}

// Every clause is sound; the clauses' tags are 1 to C.
fn clauses_sound(book: &[u32], variables: usize, clauses: usize) -> bool
    requires parted { Parted book.now }
    requires clauses_value { clauses ≡ clauses_of book.now }
    requires clauses_le_max_clauses { clauses ≤ max_clauses }
    requires variables_le_max_variables { variables ≤ max_variables }
    ensures { result ≡ all (sound_clause variables) (clauses_from book.now 0 clauses) }
{
    let mut marks = [0u16; VARIABLE_MARKS];
    for c in 0..clauses {
        let tag = c as u16 + 1;
        if !clause_sound(clause(book, clauses, c), variables, tag, &mut marks) {
            return false;
        }
    }
    true
}

// The numbers have the form of a book: number 11 of the table is given exactly where this is false.
#[tactic(auto, using(crate::proofs::WellFormedLaws::well_formed_chain))]
pub fn well_formed(book: &[u32]) -> bool
    ensures { result ≡ well_formed book.now }
{
    let variables = variables(book);
    let clauses = clauses(book);
    let literals = literals(book);
    book.len() >= clauses + literals + 4
        && number_at(book, 3) == 0
        && number_at(book, 3 + clauses) == literals
        && starts_rise(book, clauses)
        && 1 <= variables
        && variables <= MAX_VARIABLES
        && clauses <= MAX_CLAUSES
        && literals <= MAX_LITERALS
        && clauses_sound(book, variables, clauses)
}
