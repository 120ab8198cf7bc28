//! The tests of rounds: what no contract says, above all that rounds are made and worked where there is memory, and that workers run beside one another.
#![tactic(auto)]

#[cfg(test)]
mod rounds;
#[cfg(test)]
mod rows;
