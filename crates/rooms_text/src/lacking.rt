//! What a room lacks, a line for each: the convictions first, then the summaries, then the reports.

ghost use Rattle.std.specs.Prelude.{◌≡◌, ◌≤◌, ◌++◌, flat_map, OnOk};
ghost use Rattle.engines.specs.Limits.{max_engine};
ghost use Rattle.models.specs.Answers.{summary_places};
ghost use Rattle.rooms_text.specs.Lines as L;
ghost use Rattle.rooms_text.specs.Lacking as S;

use crate::lines::{LackingConviction, LackingReport, LackingSummary, Room, push_line};
use engines::{MAX_ENGINE, Signers};
use models::summaries::Summaries;
use record::Record;
use register::view::View;
use signed_records::SignedRecords;
use std::alloc::AllocError;

// A line for the conviction of an engine, if it is in a set.
fn push_conviction_of(
    out: &mut Vec<u8>,
    room: Room,
    convicted: Signers,
    engine: u32,
) -> Result<(), AllocError>
    requires { engine ≤ max_engine }
    ensures { OnOk result (out.new.items ≡ out.old.items ++ S.if_in convicted (L.conviction_line room) engine) }
{
    if !octets::masks::has_u32(convicted.mask(), engine) {
        return Ok(());
    }
    push_line(
        out,
        &LackingConviction {
            room,
            engine: engine as u8,
        },
    )
}

fn push_convictions(out: &mut Vec<u8>, room: Room, convicted: Signers) -> Result<(), AllocError>
    ensures { OnOk result (out.new.items ≡ out.old.items ++ S.conviction_lines room convicted) }
{
    for engine in 0..MAX_ENGINE + 1 {
        push_conviction_of(out, room, convicted, engine)?;
    }
    Ok(())
}

fn push_summaries(out: &mut Vec<u8>, room: Room, summaries: Summaries) -> Result<(), AllocError>
    ensures { OnOk result (out.new.items ≡ out.old.items ++ flat_map (L.summary_line room) (summary_places summaries.entry)) }
{
    for summary in summaries {
        push_line(out, &LackingSummary { room, summary })?;
    }
    Ok(())
}

// A line for the report of a record by an engine, if it is among the signers.
fn push_report_by(
    out: &mut Vec<u8>,
    room: Room,
    report: Record,
    signers: Signers,
    engine: u32,
) -> Result<(), AllocError>
    requires { engine ≤ max_engine }
    ensures { OnOk result (out.new.items ≡ out.old.items ++ S.if_in signers (L.report_line room report.entry.bytes.now) engine) }
{
    if !octets::masks::has_u32(signers.mask(), engine) {
        return Ok(());
    }
    push_line(
        out,
        &LackingReport {
            room,
            report,
            engine: engine as u8,
        },
    )
}

// A line for the report of a record by each of its signers.
fn push_reports_of(
    out: &mut Vec<u8>,
    room: Room,
    report: Record,
    signers: Signers,
) -> Result<(), AllocError>
    ensures { OnOk result (out.new.items ≡ out.old.items ++ S.for_each_in signers (L.report_line room report.entry.bytes.now)) }
{
    for engine in 0..MAX_ENGINE + 1 {
        push_report_by(out, room, report, signers, engine)?;
    }
    Ok(())
}

fn push_reports(out: &mut Vec<u8>, room: Room, records: SignedRecords) -> Result<(), AllocError>
    ensures { OnOk result (out.new.items ≡ out.old.items ++ flat_map (S.report_lines room) records.entry) }
{
    for signed in records {
        push_reports_of(out, room, signed.record(), signed.signers())?;
    }
    Ok(())
}

/// Appends a line for each conviction, summary and report of a register that a room lacks.
pub fn push_lacking(out: &mut Vec<u8>, room: Room, lacking: &View<'_>) -> Result<(), AllocError>
    ensures { OnOk result (out.new.items ≡ out.old.items ++ S.lacking_text room lacking.now) }
{
    push_convictions(out, room, lacking.convicted())?;
    push_summaries(out, room, lacking.summaries())?;
    push_reports(out, room, lacking.records())
}
