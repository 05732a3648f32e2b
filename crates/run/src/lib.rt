// The reference run of document 01 and its theorems; this crate has no code.
#![tactic(auto)]
