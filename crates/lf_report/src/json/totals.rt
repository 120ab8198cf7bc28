//! The totals of a report, as JSON.
ghost use Rattle.std.specs.Prelude.{◌≡◌, IfOk};
ghost use Rattle.serde_json.specs.View.{view};
ghost use Rattle.lf_report.specs.Json.{counts_data, summary_data, summary_object, verdicts_data};
ghost use Rattle.lf_report.specs.views.Totals.{AreTotals};

use crate::Report;
use crate::counting::Totals;
use lf_base::Memory;
use serde_json::{Value, json};
use std::alloc::{AllocError, Global};

/// The totals of a report.
pub fn summary_value(alloc: Global, report: &Report, totals: &Totals) -> Result<Value, Memory>
    requires { AreTotals report.now.rules totals.now }
    ensures { IfOk result (λ value. view value ≡ summary_data report.now) }
{
    let verdicts = verdicts_value(alloc, report, totals)?;
    let files = report.files.len();
    let refused = report.refused();
    let value = summary_of(alloc, files, refused, report.rules.len(), totals, verdicts)?;
    Ok(value)
}

/// Totals of files, refused files and rules, of findings, and of verdicts.
fn summary_of(
    alloc: Global,
    files: usize,
    refused: usize,
    rules: usize,
    totals: &Totals,
    verdicts: Value,
) -> Result<Value, AllocError>
    ensures { IfOk result (λ value. view value ≡ summary_object files totals.now.notes totals.now.problems refused rules (view verdicts)) }
{
    json!(in alloc; {
        "files": files,
        "notes": totals.notes,
        "problems": totals.problems,
        "refused": refused,
        "rules": rules,
        "verdicts": verdicts
    })
}

/// The totals of verdicts, where these are told.
fn verdicts_value(alloc: Global, report: &Report, totals: &Totals) -> Result<Value, AllocError>
    requires { AreTotals report.now.rules totals.now }
    ensures { IfOk result (λ value. view value ≡ verdicts_data report.now) }
{
    if report.labels {
        counts_value(alloc, totals)
    } else {
        Ok(Value::Null)
    }
}

/// The totals of verdicts.
fn counts_value(alloc: Global, totals: &Totals) -> Result<Value, AllocError>
    ensures { IfOk result (λ value. view value ≡ counts_data totals.now.empty totals.now.guaranteed totals.now.impossible totals.now.possible totals.now.unresolved) }
{
    json!(in alloc; {
        "empty": totals.empty,
        "guaranteed": totals.guaranteed,
        "impossible": totals.impossible,
        "possible": totals.possible,
        "unresolved": totals.unresolved
    })
}
