//! Laws of truth values and lists that several crates go by and the library of Rattle doesn't have. It has no code, and of definitions only what some of these laws are about.
#![tactic(auto)]
