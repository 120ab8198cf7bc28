//! What an expression gives in one world: definitions and laws. It has no code.
#![tactic(auto)]
