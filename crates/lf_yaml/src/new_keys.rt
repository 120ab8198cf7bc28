//! Keys that stand once in their mapping.
ghost use Rattle.std.specs.Prelude.{ℕ, List};
ghost use Rattle.lf_base.specs.Answers.{AnswersAs};
ghost use Rattle.lf_scalar.specs.Scalars.{value as scalar_value};
ghost use Rattle.lf_yaml.specs.views.Shown.{shown};
ghost use Rattle.lf_yaml.specs.views.Headed.{headed};
ghost use Rattle.lf_yaml.specs.views.KeySets.{HasKeys};
ghost use Rattle.lf_yaml.specs.reading.BlockTurns.{new_key as new_key_of, IsEntryRow};

use crate::entries::EntryRow;
use crate::held::key_scalar;
use crate::key_set::KeySet;
use crate::source::YamlSource;
use lf_base::{Kind, Refusal};
use lf_scalar::Scalar;

/// The key of an entry, whose text is none of those before. A text that is one of them is a `DoubleKey` at the key.
#[tactic(auto, unfolding(crate::specs::reading::BlockTurns::new_key))]
pub fn new_key(
    source: YamlSource<'_>,
    keys: &KeySet,
    entry: EntryRow<'_>,
) -> Result<Scalar, Refusal>
    requires entry { IsEntryRow source.bytes.now entry }
    ensures { (texts : List (List ℕ)) → HasKeys keys.now texts → AnswersAs scalar_value result (new_key_of texts (shown entry.entry.row) (headed entry.entry.row.at entry.entry.row.text.now entry.entry.head)) }
{
    match key_scalar(source, entry.row, entry.head.key) {
        Ok(key) => {
            if keys.contains(key.text.as_str()) {
                Err(Refusal::At {
                    kind: Kind::DoubleKey,
                    span: key.span,
                })
            } else {
                Ok(key)
            }
        }
        Err(refusal) => Err(refusal),
    }
}
