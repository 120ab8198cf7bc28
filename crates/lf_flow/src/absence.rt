//! The row of `absent` and `absent_over_time`.
ghost use Rattle.std.specs.Prelude.{◌≡◌, ◌<◌, ◌&&◌, [], Some, eqb, not, true, length, IfOk, OnOk, slice_index_or};
ghost use Rattle.lf_ast.specs.Tree.{trees};
ghost use Rattle.lf_semantics.specs.ClassRows.{top, replaced};
ghost use Rattle.lf_semantics.specs.Listing.{Listing};
ghost use Rattle.lf_semantics.specs.Parts.{sought_in};
ghost use Rattle.lf_semantics.specs.RowTable.{absent_row, bare_row, has_class};
ghost use Rattle.lf_flow.specs.views.Absence.{AreCounts, is_class_sought, sought_text};

use crate::effects::bare;
use lf_ast::{Expr, MatchOp, Matcher};
use lf_base::Memory;
use lf_classes::{Row, Universe};
use lf_nodes::sought_in;
use std::alloc::Global;

/// The row of the sample that is given where nothing was found: of a selector the texts that its matchers let each label take, and of any other argument no label.
pub fn absent(alloc: Global, universe: &Universe, args: &[Expr]) -> Result<Row, Memory>
    ensures { IfOk result (λ row. row ≡ absent_row universe.now (sought_in (trees args.now))) }
{
    match sought_in(args) {
        Some(sought) => sought_row(alloc, universe, sought.matchers, sought.may_be_bare),
        None => bare(alloc, universe),
    }
}

/// The row of what a selector with these matchers looks for. A label on which one matcher alone stands, which gives a text, is lacked only where the sample may be bare.
fn sought_row(
    alloc: Global,
    universe: &Universe,
    matchers: &[Matcher],
    may_be_bare: bool,
) -> Result<Row, Memory>
    ensures { IfOk result (λ row. row ≡ absent_row universe.now (Some (record { matchers = matchers.now; may_be_bare = may_be_bare }))) }
{
    let mut row = bare(alloc, universe)?;
    let counts = put_texts(alloc, universe, matchers, &mut row)?;
    if may_be_bare {
        return Ok(row);
    }
    for label in 0..universe.labels() {
        if has_one_text(&counts, &row, label) {
            row.keep(label, 0, false);
        }
    }
    Ok(row)
}

/// Puts the class of each matcher's text into the set of its label, and tells how many matchers stand on each label. Of the metric name the sample has no text, whatever
/// the matchers on it say.
fn put_texts(
    alloc: Global,
    universe: &Universe,
    matchers: &[Matcher],
    row: &mut Row,
) -> Result<Vec<usize>, Memory>
    requires bare { row.old ≡ bare_row universe.now }
    ensures row { OnOk result (row.new ≡ replaced (λ label. true) (λ label. is_class_sought universe.now label true matchers.now) (top universe.now)) }
    ensures counts { IfOk result (λ counts. AreCounts universe.now matchers.now counts.items) }
{
    let metric = universe.label_of("__name__");
    let mut counts = vec![in alloc; 0; universe.labels() as usize]?;
    for matcher in matchers {
        let label = universe.label_of(matcher.label.as_str());
        if label == metric {
            continue;
        }
        row.keep(label, universe.class_of(label, sought_text(matcher)), true);
        counts[label as usize] += 1;
    }
    Ok(counts)
}

/// Whether one matcher alone stands on a label, and the label has a text.
fn has_one_text(counts: &[usize], row: &Row, label: u32) -> bool
    requires count { label < length counts.now }
    requires label { label < length row.now }
    ensures { (universe : Listing) → result ≡ (eqb (slice_index_or counts.now label 0) 1 && has_class universe (λ class. not (eqb class 0)) (slice_index_or row.now label [])) }
{
    counts[label as usize] == 1 && row.has_text(label)
}

/// The text of an `=`, and of any other matcher none.
fn sought_text(matcher: &Matcher) -> &str
    ensures { result.now ≡ sought_text matcher.now }
{
    match matcher.op {
        MatchOp::Equal => matcher.value.as_str(),
        _ => "",
    }
}
