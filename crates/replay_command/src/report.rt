// The report of a replay.
ghost use Rattle.std.specs.Prelude.{◌≡◌, ◌++◌, IfOk, OnOk, decimal};
ghost use Rattle.std.specs.List.{list_any};
ghost use Rattle.group_state.specs.Report.{counts_in};
ghost use Rattle.replay_command.specs.Report.{is_divergence};
ghost use Rattle.replay_command.specs.Texts.{divergence_text, group_text, report_line_text, report_text, verdict_text};
ghost use Rattle.replay_command.specs.inside.Ending.{PrintsAtEnd};

use command_run::WorkText;
use fri_text::Text;
use group_state::{Report, ReportLine};
use guest_process::{Divergence, Verdict, push_end};
use std::alloc::{AllocError, Global};

// The number and the name of a divergence.
fn divergence_text(why: Divergence) -> &'static str
    ensures { result.now ≡ divergence_text why }
{
    match why {
        Divergence::AfterEnd => "1 AfterEnd",
        Divergence::NoThread => "2 NoThread",
        Divergence::OtherCall => "3 OtherCall",
        Divergence::OtherArguments => "4 OtherArguments",
        Divergence::OtherBytes => "5 OtherBytes",
        Divergence::OtherReply => "6 OtherReply",
        Divergence::NoHandler => "7 NoHandler",
        Divergence::OtherClock => "8 OtherClock",
    }
}

fn push_verdict(text: &mut Text, verdict: Verdict) -> Result<(), AllocError>
    ensures { OnOk result (text.new ≡ text.old ++ verdict_text verdict) }
{
    match verdict {
        Verdict::Whole => text.push_str("log whole"),
        Verdict::Left(count) => {
            text.push_u64(count)?;
            text.push_str(" bytes left over")
        }
        Verdict::Diverged(at, why) => {
            text.push_str("diverged at ")?;
            text.push_u64(at)?;
            text.push_str(": ")?;
            text.push_str(divergence_text(why))?;
            Ok(())
        }
    }
}

fn push_line(alloc: Global, text: &mut Text, line: &ReportLine) -> Result<(), AllocError>
    ensures { OnOk result (text.new ≡ text.old ++ report_line_text line.now) }
{
    text.push_bytes(line.name.as_slice())?;
    text.push_str(": ")?;
    text.push_u64(line.events)?;
    text.push_str(" events, ")?;
    push_end(alloc, text, line.end)?;
    text.push_str(", ")?;
    push_verdict(text, line.verdict)?;
    text.push_str("\n")?;
    Ok(())
}

// A number, and what it is that is so many.
fn push_count(text: &mut Text, number: u64, what: &str) -> Result<(), AllocError>
    ensures { OnOk result (text.new ≡ text.old ++ (decimal number ++ what.now)) }
{
    text.push_u64(number)?;
    text.push_str(what)?;
    Ok(())
}

fn push_counts(text: &mut Text, report: &Report) -> Result<(), AllocError>
    ensures { OnOk result (text.new ≡ text.old ++ group_text (counts_in report.now)) }
{
    text.push_str("group: ")?;
    push_count(text, report.sends, " sends, ")?;
    push_count(text, report.receives, " receives, ")?;
    push_count(text, report.unmatched, " unmatched, ")?;
    push_count(text, report.untagged, " untagged\n")?;
    Ok(())
}

fn is_divergence(verdict: Verdict) -> bool
    ensures { result ≡ is_divergence verdict }
{
    match verdict {
        Verdict::Whole => false,
        Verdict::Left(_) => false,
        Verdict::Diverged(..) => true,
    }
}

// Whether a log diverged.
fn some_log_diverges(lines: &[ReportLine]) -> bool
    ensures { result ≡ list_any (λ line. is_divergence line.verdict) lines.now }
{
    lines.iter().any(|line| is_divergence(line.verdict))
}

/// A line for each log, and the counts of the group; and whether a log diverged.
pub fn print_report(alloc: Global, report: &Report) -> Result<WorkText, AllocError>
    ensures { IfOk result (PrintsAtEnd (report_text report.now.lines.items (counts_in report.now)) (list_any (λ line. is_divergence line.verdict) report.now.lines.items)) }
{
    let mut text = Text::new(alloc);
    for line in &report.lines {
        push_line(alloc, &mut text, line)?;
    }
    push_counts(&mut text, report)?;
    if some_log_diverges(&report.lines) {
        Ok(WorkText::Diverged(text))
    } else {
        Ok(WorkText::Done(text))
    }
}
