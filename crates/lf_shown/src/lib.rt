//! The built world shows all that a row leaves, where no construct is open: definitions and laws. It has no code.
#![tactic(auto)]
