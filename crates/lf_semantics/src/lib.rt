//! What an expression means: definitions and laws. It has no code.
#![tactic(auto)]
