// Two agents, one outcome (request K14): of any two sessions on one book, over what `session` promises; this crate has no code.
#![tactic(auto)]
