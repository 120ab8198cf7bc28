//! The tests of the whole program on stand-ins of the outside: what no contract says, above all that runs succeed where there is memory. They stand in a crate of their own,
//! since a crate with tests is proved twice; those of the libraries below stand in `lf_library_tests`.
//!
//! A test that owns several values and may end early at many places is dear to prove, since each is dropped at each: several short tests are cheaper than a long one.
#![tactic(auto)]

#[cfg(test)]
mod of_lf_lint;
