//! Trees of rule files, by a profile of YAML 1.2.
#![tactic(auto)]

mod below;
mod between;
mod block_turns;
mod characters;
mod document;
mod entries;
mod entry;
mod far_keys;
mod flow_entries;
mod flow_items;
mod flow_key;
mod flow_nodes;
mod flow_parts;
mod flow_plain;
mod flow_scalar;
mod flow_text;
mod flow_value;
mod folded;
mod head;
mod held;
mod key_set;
mod keys;
mod made;
mod nested;
mod new_keys;
mod node;
mod part_scalar;
mod parts;
mod place;
mod plain;
mod row;
mod row_value;
mod rows;
mod scalars;
mod source;
mod turn;
mod uniqueness;

pub use document::read_tree;
pub use node::{Entry, Node};
pub use uniqueness::one_answer;
