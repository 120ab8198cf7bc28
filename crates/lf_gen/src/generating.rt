//! The text of the generated rule file.
ghost use Rattle.std.specs.Prelude.{◌≡◌, ◌≤◌, ◌<◌, ◌++◌, ◌%◌, string_bytes, IfOk, OnOk};
ghost use Rattle.lf_gen.specs.Generated.{alert_lines, first_lines, generated, group_lines, head_lines, kind_lines, second_lines, third_lines};
ghost use Rattle.lf_base.specs.Lines.{lines_text};

use lf_base::{Memory, Text};
use std::alloc::Global;

/// The annotations of an alert: its template refers to a label that its samples may have, and to one that none of them has.
const ANNOTATIONS: &str =
    "    annotations:\n      summary: \"{{ $labels.job }} of {{ $labels.shard }}\"\n";

/// The text of the generated rule file of `n` rules, 1 to 4,000. Rules are numbered from 0. A group has 100 of them. Of four rules in turn each but the first reads what the one
/// before it records, and the last is an alert.
pub fn gen_text(alloc: Global, n: u32) -> Result<Text, Memory>
    requires some { 1 ≤ n }
    requires most { n ≤ 4000 }
    ensures { IfOk result (λ text. text ≡ generated n) }
{
    let mut text = String::from_str(alloc, "groups:\n")?;
    for rule in 0..n {
        push_head(&mut text, rule)?;
        push_rule(&mut text, rule)?;
    }
    Ok(Text::from_string(text))
}

/// Appends the lines that begin a group, where a rule begins one.
fn push_head(text: &mut String, rule: u32) -> Result<(), Memory>
    ensures { OnOk result (string_bytes text.new ≡ string_bytes text.old ++ lines_text (head_lines rule)) }
{
    if rule % 100 == 0 {
        push_group(text, rule / 100)
    } else {
        Ok(())
    }
}

/// Appends the lines that begin a group.
fn push_group(text: &mut String, group: u32) -> Result<(), Memory>
    ensures { OnOk result (string_bytes text.new ≡ string_bytes text.old ++ lines_text (group_lines group)) }
{
    write!(text, "- name: g{group}\n  rules:\n")?;
    Ok(())
}

/// Appends the lines of a rule, which is of one of four kinds by its number.
fn push_rule(text: &mut String, rule: u32) -> Result<(), Memory>
    ensures { OnOk result (string_bytes text.new ≡ string_bytes text.old ++ lines_text (kind_lines (rule % 4) rule)) }
{
    match rule % 4 {
        0 => push_first(text, rule),
        1 => push_second(text, rule),
        2 => push_third(text, rule),
        _ => push_alert(text, rule),
    }
}

/// Appends the lines of a rule that sums a scraped metric.
fn push_first(text: &mut String, rule: u32) -> Result<(), Memory>
    ensures { OnOk result (string_bytes text.new ≡ string_bytes text.old ++ lines_text (first_lines rule)) }
{
    write!(
        text,
        "  - record: gen:{rule}:a\n    expr: sum by (job, shard) (m_{rule}{{env=\"p\"}})\n"
    )?;
    Ok(())
}

/// Appends the lines of a rule that sums what the rule before it records.
fn push_second(text: &mut String, rule: u32) -> Result<(), Memory>
    requires { 0 < rule }
    ensures { OnOk result (string_bytes text.new ≡ string_bytes text.old ++ lines_text (second_lines rule)) }
{
    let before = rule - 1;
    write!(
        text,
        "  - record: gen:{rule}:b\n    expr: sum without (shard) (gen:{before}:a)\n"
    )?;
    Ok(())
}

/// Appends the lines of a rule that divides what the rule before it records.
fn push_third(text: &mut String, rule: u32) -> Result<(), Memory>
    requires { 0 < rule }
    ensures { OnOk result (string_bytes text.new ≡ string_bytes text.old ++ lines_text (third_lines rule)) }
{
    let before = rule - 1;
    write!(
        text,
        "  - record: gen:{rule}:c\n    expr: gen:{before}:b / on (job) m_{rule}\n"
    )?;
    Ok(())
}

/// Appends the lines of an alert on what the rule before it records.
fn push_alert(text: &mut String, rule: u32) -> Result<(), Memory>
    requires { 0 < rule }
    ensures { OnOk result (string_bytes text.new ≡ string_bytes text.old ++ lines_text (alert_lines rule)) }
{
    let before = rule - 1;
    write!(
        text,
        "  - alert: Gen{rule}\n    expr: gen:{before}:c > 0.5\n"
    )?;
    text.push_str(ANNOTATIONS)?;
    Ok(())
}
