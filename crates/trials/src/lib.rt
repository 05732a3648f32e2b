// Test equipment, no part of the product: rows of trials, and trials of texts, for the program `limits`.
#![tactic(auto)]

pub mod build;
pub mod damage;
pub mod lists;
pub mod messages;
pub mod names;
pub mod readings;
pub mod rows;
pub mod space;
