//! What checks are called, and how grave what they find is.
ghost use Rattle.std.specs.Prelude.{◌≡◌};
ghost use Rattle.lf_checks.specs.Finding.{name_of};
ghost use Rattle.lf_checks.specs.Findings.{severity_of};
ghost use Rattle.lf_checks.specs.views.Cases.{check_at};
ghost use Rattle.lf_judge.specs.Judged.{severity_told};

use lf_report::Severity;

/// The name of the check with this number.
pub fn check_name(check: u8) -> &'static str
    ensures { result.now ≡ name_of (check_at check) }
{
    match check {
        1 => "alert/comparison",
        2 => "alert/template",
        3 => "rule/duplicate",
        4 => "rule/dependency",
        5 => "promql/regexp",
        6 => "match/label",
        7 => "expr/empty",
        8 => "expr/type",
        _ => "rule/label",
    }
}

/// How grave what the check with this number finds is.
pub fn severity(check: u8) -> Severity
    ensures { result ≡ severity_told (severity_of (check_at check)) }
{
    match check {
        1 | 2 | 3 | 7 | 8 => Severity::Problem,
        _ => Severity::Note,
    }
}
