//! Worlds that show that a label can be on a sample or can be lacking: definitions. It has no code.
#![tactic(auto)]
