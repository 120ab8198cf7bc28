//! The tests of the libraries that the program stands on, up to the rules of a file, a file a library: what no contract says, above all that calls succeed where there is
//! memory. They stand in a crate of their own, since a crate with tests is proved twice, and apart from those of the whole program, since they can be proved before it. What
//! the cases of `tests/` show isn't shown again: lf_fix and most of lf_flow are run by `tests/tables` and `tests/cases`.
//!
//! A test that owns several values and may end early at many places is dear to prove, since each is dropped at each: several short tests are cheaper than a long one.
#![tactic(auto)]

#[cfg(test)]
mod deep;
#[cfg(test)]
mod of_lf_accept;
#[cfg(test)]
mod of_lf_ast;
#[cfg(test)]
mod of_lf_base;
#[cfg(test)]
mod of_lf_board;
#[cfg(test)]
mod of_lf_classes;
#[cfg(test)]
mod of_lf_flow;
#[cfg(test)]
mod of_lf_lex;
#[cfg(test)]
mod of_lf_parse;
#[cfg(test)]
mod of_lf_pattern;
#[cfg(test)]
mod of_lf_rules;
#[cfg(test)]
mod of_lf_scalar;
#[cfg(test)]
mod of_lf_sizes;
#[cfg(test)]
mod of_lf_templates;
#[cfg(test)]
mod of_lf_yaml;
