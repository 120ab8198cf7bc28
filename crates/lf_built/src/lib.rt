//! The world that is built to show a text of a label on a sample of a rule.
#![tactic(auto)]

mod bound;
mod building;
mod built;
mod fitting;
mod handing;
mod made;
mod marking;
mod marks;
mod once;
mod operands;
mod part_rows;
mod parts;
mod prepared;
mod row_making;
mod series;
mod sides;
mod sizes;
mod spots;
mod unsaid;
mod visiting;
mod work;

pub use built::Built;
pub use prepared::Prepared;
pub use row_making::{RuleRow, rule_rows};
