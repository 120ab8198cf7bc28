//! A building under way.
ghost use Rattle.std.specs.Prelude.{◌≡◌, ◌++◌, reverse, OnOk};
ghost use Rattle.lf_built.specs.views.Works.{tasks_of};

use crate::made::BuiltSeries;
use crate::marks::Marks;
use crate::spots::Spot;
use lf_base::Memory;
use lf_candidates::LabelTexts;

/// What is to be done: to build an expression from these texts; or, once the expression of the rule that was marked last is built, to take its mark off and to add its step.
#[derive(Drop)]
pub enum Pending<'a> {
    Visit { spot: Spot<'a>, texts: LabelTexts },
    Finish,
}

/// The parts of an expression that are to be built, with their texts: none, one, or both sides of an operator.
#[derive(Drop)]
pub enum WantedParts<'a> {
    Nothing,
    One {
        spot: Spot<'a>,
        texts: LabelTexts,
    },
    Both {
        left: Spot<'a>,
        left_texts: LabelTexts,
        right: Spot<'a>,
        right_texts: LabelTexts,
    },
}

/// What was built, and what is still to be done, the next task last.
#[derive(Drop)]
pub struct Work<'a> {
    pub stack: Vec<Pending<'a>>,
    /// The numbers of the rules whose expressions are being built, the first one's at first.
    pub marked: Marks,
    /// How many rules aren't marked.
    pub unmarked: usize,
    pub made: BuiltSeries,
}

/// Puts parts onto a stack, the first one last.
pub fn push_parts<'a>(stack: &mut Vec<Pending<'a>>, parts: WantedParts<'a>) -> Result<(), Memory>
    ensures { OnOk result (reverse stack.new.items ≡ tasks_of parts.entry ++ reverse stack.old.items) }
{
    match parts {
        WantedParts::Nothing => Ok(()),
        WantedParts::One { spot, texts } => {
            stack.push(Pending::Visit { spot, texts })?;
            Ok(())
        }
        WantedParts::Both {
            left,
            left_texts,
            right,
            right_texts,
        } => {
            stack.push(Pending::Visit {
                spot: right,
                texts: right_texts,
            })?;
            stack.push(Pending::Visit {
                spot: left,
                texts: left_texts,
            })?;
            Ok(())
        }
    }
}
