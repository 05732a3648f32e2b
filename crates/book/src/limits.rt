// The limits of a rule book. specs/Formula and specs/Reading have the same names.

// The bytes of a text (`max_text`).
pub const MAX_TEXT: usize = 60000;

// V, C, L and the literals of one clause (`max_variables`, `max_clauses`, `max_literals`, `max_clause`).
pub const MAX_VARIABLES: usize = 500;

pub const MAX_CLAUSES: usize = 1500;

pub const MAX_LITERALS: usize = 6000;

pub const MAX_CLAUSE: usize = 255;

// The numbers of the largest book: C + L + 4.
pub const MAX_BOOK: usize = MAX_CLAUSES + MAX_LITERALS + 4;

// A mark for each variable, and one that no variable has.
pub(crate) const VARIABLE_MARKS: usize = MAX_VARIABLES + 1;
