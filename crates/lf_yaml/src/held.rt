//! The scalars of keys.
ghost use Rattle.std.specs.Prelude.{◌+◌};
ghost use Rattle.lf_base.specs.Answers.{AnswersAs};
ghost use Rattle.lf_scalar.specs.Scalars.{value as scalar_value};
ghost use Rattle.lf_yaml.specs.reading.Trees.{key_of};
ghost use Rattle.lf_yaml.specs.views.Headed.{key_of_code, IsKeyIn};
ghost use Rattle.lf_yaml.specs.views.Shown.{shown};
ghost use Rattle.lf_yaml.specs.views.Cursor.{IsRowOf};

use crate::between::quoted_scalar;
use crate::entries::Key;
use crate::plain::slice_scalar;
use crate::row::ContentLine;
use crate::source::YamlSource;
use lf_base::bytes::before;
use lf_base::{Refusal, Span};
use lf_scalar::Scalar;
use lf_scalar::lines::past;

/// The scalar of a key that a row of a file begins with. A key without quotes is its text, `null` and `~` too.
#[tactic(auto, unfolding(crate::specs::reading::Trees::key_of))]
pub fn key_scalar(source: YamlSource<'_>, row: ContentLine<'_>, key: Key) -> Result<Scalar, Refusal>
    requires row { IsRowOf source.bytes.now row }
    requires key { IsKeyIn row.at row.text.now key }
    ensures { AnswersAs scalar_value result (key_of (shown row.entry).first (shown row.entry).rest (key_of_code row.entry.at row.entry.text.now key)) }
{
    match key {
        Key::Bare { len } => slice_scalar(
            source.alloc,
            before(row.text, len),
            row.at,
            Span {
                start: row.at,
                end: row.at + len as u32,
            },
        ),
        Key::Between { quote, closing } => {
            quoted_scalar(source, row.at, past(row.text, 1), quote, closing)
        }
    }
}
