// Where each number of a session lies, what is read there, and a ceiling of what a book costs in one period.
#![tactic(auto)]

pub mod ceiling;
pub mod limits;
pub mod offsets;
pub mod values;
