ghost use Rattle.std.specs.Prelude.{◌≡◌, IfOk, string_bytes};
ghost use Rattle.std.specs.List.{flat_map};
ghost use Rattle.trace_judge.specs.ReportText.{collision_text, forged_text, guest_end_text, guest_line_text, report_rule_text, report_text, verdict_text};

use crate::{GuestEnd, GuestLine, Report, Verdict};
use std::alloc::Global;
use xom_base::{ByteList, NoMemory, Rule};

/// The report as text, a line for each guest and then one on forgery and one on collision.
pub fn print_report(alloc: Global, report: &Report) -> Result<ByteList, NoMemory>
    ensures { IfOk result (λ text. text ≡ report_text report.now) }
{
    let mut text = lines_of(alloc, report.guests.as_slice())?;
    text.push_str(forged_of(alloc, report.forged)?.as_str())?;
    text.push_str(collision_of(alloc, report.collision)?.as_str())?;
    Ok(ByteList::from_vec(text.into_bytes()))
}

/// The lines of the guests.
fn lines_of(alloc: Global, lines: &[GuestLine]) -> Result<String, NoMemory>
    ensures { IfOk result (λ text. string_bytes text ≡ flat_map guest_line_text lines.now) }
{
    let mut text = String::new(alloc);
    for line in lines {
        text.push_str(line_of(alloc, line)?.as_str())?;
    }
    Ok(text)
}

fn line_of(alloc: Global, line: &GuestLine) -> Result<String, NoMemory>
    ensures { IfOk result (λ text. string_bytes text ≡ guest_line_text line.now) }
{
    let install = line.install;
    let slot = line.slot;
    let id = hex::encode(alloc, line.id.0.as_slice())?;
    let verdict = verdict_of(alloc, line.verdict)?;
    let end = end_of(alloc, line.end)?;
    Ok(format!(in alloc; "guest {install} slot {slot} id {id} {verdict} {end}\n")?)
}

fn verdict_of(alloc: Global, verdict: Verdict) -> Result<String, NoMemory>
    ensures { IfOk result (λ text. string_bytes text ≡ verdict_text verdict) }
{
    Ok(match verdict {
        Verdict::Follows(steps) => format!(in alloc; "follows {steps} steps")?,
        Verdict::Departs(step) => format!(in alloc; "departs at step {step}")?,
        Verdict::NoOwner => String::from_str(alloc, "no owner")?,
    })
}

fn end_of(alloc: Global, end: GuestEnd) -> Result<String, NoMemory>
    ensures { IfOk result (λ text. string_bytes text ≡ guest_end_text end) }
{
    match end {
        GuestEnd::Ended => Ok(String::from_str(alloc, "ended")?),
        GuestEnd::Stopped(rule) => {
            let rule = rule_of(alloc, rule)?;
            Ok(format!(in alloc; "stopped {rule}")?)
        }
        GuestEnd::Killed => Ok(String::from_str(alloc, "killed")?),
        GuestEnd::Running => Ok(String::from_str(alloc, "open")?),
    }
}

fn rule_of(alloc: Global, rule: Rule) -> Result<String, NoMemory>
    ensures { IfOk result (λ text. string_bytes text ≡ report_rule_text rule) }
{
    Ok(match rule {
        Rule::LineTag(line) => format!(in alloc; "LineTag {line}")?,
        Rule::TreeNode(level) => format!(in alloc; "TreeNode {level}")?,
        Rule::RegisterTag(reg) => format!(in alloc; "RegisterTag {reg}")?,
        Rule::RegisterMissing(reg) => format!(in alloc; "RegisterMissing {reg}")?,
    })
}

fn forged_of(alloc: Global, forged: Option<u64>) -> Result<String, NoMemory>
    ensures { IfOk result (λ text. string_bytes text ≡ forged_text forged) }
{
    Ok(match forged {
        None => String::from_str(alloc, "forged none\n")?,
        Some(entry) => format!(in alloc; "forged at entry {entry}\n")?,
    })
}

fn collision_of(alloc: Global, collision: Option<(u64, u64)>) -> Result<String, NoMemory>
    ensures { IfOk result (λ text. string_bytes text ≡ collision_text collision) }
{
    Ok(match collision {
        None => String::from_str(alloc, "collision none\n")?,
        Some((first, second)) => format!(in alloc; "collision of entries {first} and {second}\n")?,
    })
}
