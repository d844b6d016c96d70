//! The command `report`, over the journal on a disk.

ghost use Rattle.std.specs.Prelude.{◌≡◌, ◌≢◌, IfSome, IsErrOf, Ok};
ghost use Rattle.intent_journal.specs.declared.fault.JournalFault.TheVariants as fault;
ghost use Rattle.disk_mirror.specs.Openings.{IsTold};
ghost use Rattle.wan_edge.specs.Streams.{Rose};
ghost use Rattle.rollout_report.specs.Journals.{digest_for};
ghost use Rattle.text_commands.specs.CommandEnds.{status_of};
ghost use Rattle.text_commands.specs.declared.unfinished.Unfinished.{Unfinished};
ghost use Rattle.swanroll_top.specs.Leavings.{LeavesJournal};
ghost use Rattle.swanroll_top.specs.ReportPromise.{ReportsIn, ReportsOn};
ghost use Rattle.text_commands.specs.Answers.{rollout_in};
ghost use Rattle.swanroll_top.specs.Reports.{EndsJournal, FollowsReported};

use crate::run::CommandResult;
use disk_mirror::Openable;
use disk_model::Disk;
use intent_journal::JournalFault;
use lists::Text;
use retarget_service::journal_room;
use rollout_report::{Reported, report_journal};
use std::alloc::Global;
use text_commands::{CommandEnd, read_input, rollout_of, write_text};
use wan_edge::{Nums8, Sink, Source};
use wan_model::CheckedPlan;

/// Reads all of the source, and writes how far the rollout of its document has come by the journal on the
/// disk.
pub fn report<S: Source, K: Sink, D: Openable>(
    alloc: Global,
    migration: u32,
    source: &mut S,
    sink: &mut K,
    disk: D,
) -> CommandResult<D>
    ensures reports { ReportsOn D.told migration (S.told source.old) (S.told source.new) disk
        result.disk result.ending (K.told sink.old).written (K.told sink.new).written }
    ensures read_fault { result.ending ≡ CommandEnd.ReadFault
        → Rose (S.told source.old).faults (S.told source.new).faults }
    ensures write_fault { result.ending ≡ CommandEnd.WriteFault
        → Rose (K.told sink.old).faults (K.told sink.new).faults }
    ensures disk_fault { result.ending ≡ CommandEnd.DiskFault
        → Rose (D.told disk).faults (D.told result.disk).faults }
    ensures no_guest { result.ending ≢ CommandEnd.GuestFault }
    ensures no_rollout { (u : Unfinished) → result.ending ≢ CommandEnd.NotFinished u }
    ensures ran { result.ending ≢ CommandEnd.Usage }
{
    match read_input(alloc, source) {
        Ok(input) => report_input(alloc, migration, input, sink, disk),
        Err(ending) => CommandResult { ending, disk },
    }
}

fn report_input<K: Sink, D: Openable>(
    alloc: Global,
    migration: u32,
    input: Nums8,
    sink: &mut K,
    disk: D,
) -> CommandResult<D>
    ensures reports { ReportsIn D.told migration (rollout_in input) disk result.disk result.ending
        (K.told sink.old).written (K.told sink.new).written }
    ensures write_fault { result.ending ≡ CommandEnd.WriteFault
        → Rose (K.told sink.old).faults (K.told sink.new).faults }
    ensures disk_fault { result.ending ≡ CommandEnd.DiskFault
        → Rose (D.told disk).faults (D.told result.disk).faults }
{
    match rollout_of(alloc, input) {
        Ok(plan) => report_plan(alloc, plan, migration, sink, disk),
        Err(ending) => CommandResult { ending, disk },
    }
}

/// Opens the disk, and reports the journal that it tells then.
fn report_plan<K: Sink, D: Openable>(
    alloc: Global,
    plan: CheckedPlan,
    migration: u32,
    sink: &mut K,
    mut disk: D,
) -> CommandResult<D>
    ensures reports { ReportsIn D.told migration (Ok plan) disk result.disk result.ending
        (K.told sink.old).written (K.told sink.new).written }
    ensures write_fault { result.ending ≡ CommandEnd.WriteFault
        → Rose (K.told sink.old).faults (K.told sink.new).faults }
    ensures disk_fault { result.ending ≡ CommandEnd.DiskFault
        → Rose (D.told disk).faults (D.told result.disk).faults }
{
    match disk.open(journal_room(&plan)) {
        Ok(()) => report_opened(alloc, plan, migration, sink, disk),
        Err(_) => {
            drop(plan);
            CommandResult {
                ending: CommandEnd::DiskFault,
                disk,
            }
        }
    }
}

pub(crate) fn report_opened<K: Sink, D: Disk>(
    alloc: Global,
    plan: CheckedPlan,
    migration: u32,
    sink: &mut K,
    disk: D,
) -> CommandResult<D>
    requires told { IsTold (D.told disk).bytes }
    ensures follows { FollowsReported migration (Ok plan) (D.told disk).bytes result.ending
        (K.told sink.old).written (K.told sink.new).written }
    ensures leaves { IfSome (D.told disk).bytes
        (λ image. LeavesJournal D.told plan (digest_for plan migration) image
        (status_of result.ending) disk result.disk) }
    ensures write_fault { result.ending ≡ CommandEnd.WriteFault
        → Rose (K.told sink.old).faults (K.told sink.new).faults }
    ensures disk_fault { result.ending ≡ CommandEnd.DiskFault
        → Rose (D.told disk).faults (D.told result.disk).faults }
{
    let Reported { disk, answer } = report_journal(alloc, plan, migration, disk);
    CommandResult {
        ending: write_report(sink, answer),
        disk,
    }
}

/// Writes a report, or says how the run ends without one.
fn write_report<K: Sink>(sink: &mut K, report: Result<Text, JournalFault>) -> CommandEnd
    ensures written { EndsJournal report result (K.told sink.old).written
        (K.told sink.new).written }
    ensures write_fault { result ≡ CommandEnd.WriteFault
        → Rose (K.told sink.old).faults (K.told sink.new).faults }
    ensures disk { result ≡ CommandEnd.DiskFault → IsErrOf report fault.Disk }
{
    match report {
        Ok(text) => write_text(sink, text.as_str()),
        Err(cause) => CommandEnd::from(cause),
    }
}
