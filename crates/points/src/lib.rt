// The marked points of document 01, and points of the change requests, shown of the definitions; this crate has no code.
#![tactic(auto)]
