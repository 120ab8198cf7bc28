//! The strict answer of an expression depends only on the stored samples of the names that it reads: a law. It has no code.
#![tactic(auto)]
