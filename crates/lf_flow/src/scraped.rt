//! The row of all scraped series.
ghost use Rattle.std.specs.Prelude.{◌≡◌, ◌<◌, ◌+◌, ◌&&◌, eqb, length, not, is_some, IfOk, IfSome};
ghost use Rattle.std.specs.List.{list_any};
ghost use Rattle.lf_semantics.specs.Listing.{class_of, named_at};
ghost use Rattle.lf_semantics.specs.RowTable.{scraped_row};
ghost use Rattle.lf_flow.specs.views.ClassSets.{IsSet};

use crate::Env;
use lf_base::{Memory, Text};
use lf_classes::{Row, TextSet, Universe};
use lf_deps::Sources;
use std::alloc::Global;

/// The row of all scraped series, where a rule of an index has a selector without a name. Else nothing reads it, and it isn't made: that is for speed alone, so no clause says it.
///
/// It is the same in each environment of the same names, and takes as long as there are recorded names. `solve` and the checks make it once for all rules. Rounds, and the
/// rows by which worlds are built, don't take it: there each selector without a name makes it again.
pub fn scraped_if_read(
    alloc: Global,
    universe: &Universe,
    env: &Env,
    sources: &Sources,
) -> Result<Option<Row>, Memory>
    ensures { IfOk result (λ scraped. IfSome scraped (λ row. row ≡ scraped_row universe.now env.now)) }
{
    for k in 0..sources.rule_count() {
        if read_all(sources.selected_by(k)) {
            let row = scraped_row(alloc, universe, env)?;
            return Ok(Some(row));
        }
    }
    Ok(None)
}

/// Whether one of these selectors has no name, so that they read the rows of all names.
pub fn read_all(found: &[Option<Text>]) -> bool
    ensures { result ≡ list_any (λ selector. not (is_some selector)) found.now }
{
    found.iter().any(|selector| selector.is_none())
}

/// All series: each name but the empty one and the recorded ones.
pub(crate) fn scraped_row(alloc: Global, universe: &Universe, env: &Env) -> Result<Row, Memory>
    ensures { IfOk result (λ row. row ≡ scraped_row universe.now env.now) }
{
    let mut row = Row::full(alloc, universe)?;
    let label = universe.label_of("__name__");
    let on = unrecorded(alloc, universe, label, env.recorded())?;
    row.set_classes(label, &on);
    Ok(row)
}

/// The classes of a label but the empty text and those of some names.
fn unrecorded(
    alloc: Global,
    universe: &Universe,
    label: u32,
    names: &TextSet,
) -> Result<Vec<bool>, Memory>
    requires label { label < length universe.now.named }
    ensures { IfOk result (λ on. IsSet (length (named_at universe.now label) + 2) (λ class. not (eqb class 0) && not (list_any (λ name. eqb (class_of universe.now label name) class) names.now)) on.items) }
{
    let mut on = vec![in alloc; true; universe.classes(label) as usize]?;
    on[0] = false;
    for place in 0..names.len() {
        let class = universe.class_of(label, names.get(place).as_str());
        on[class as usize] = false;
    }
    Ok(on)
}
