ghost use Rattle.std.specs.Prelude.{◌≡◌, ◌≤◌, ◌<◌, ◌&&◌, ◌==◌, [], Some, bytes_eq, drop, length, take, if◌then◌else◌, IfErr, IfNone, IfOk, IfSome, IsTrue, MatchOption};
ghost use Rattle.rollout_rules.specs.History.{from_nothing, started};
ghost use Rattle.intent_journal.specs.Images as images;
ghost use Rattle.intent_journal.specs.Images.{open_journal};
ghost use Rattle.intent_journal.specs.declared.digest.Digest.{Digest};
ghost use Rattle.intent_journal.specs.Judging.{BeforeList, IsJudged, IsJudgedPart, IsOfList, LeavesGraph, LeavesGraphOf, part_entries, part_start};
ghost use Rattle.disk_model.specs.Numbers as numbers;
ghost use Rattle.intent_journal.specs.Parts.{digest_in, is_whole, migration_in};
ghost use Rattle.intent_journal.specs.Phases.{IsFound};
ghost use Rattle.intent_journal.specs.Reading as reading;
ghost use Rattle.intent_journal.specs.Reading.{IsRead};
ghost use Rattle.intent_journal.specs.Verdicts.{IsRefusal, NotLegal, Stands, judged_journal, judged_list, judged_part, with_history};
ghost use Rattle.intent_journal.specs.Verdicts as verdicts;

use crate::digest::Digest;
use crate::fault::JournalFault;
use crate::following::follow_all;
use crate::found::Found;
use crate::listed::Listed;
use crate::live::{FIRST_SIDE, SECOND_SIDE, live_side};
use crate::part;
use crate::slot::{OPEN_SLOT, Slot, part_of};
use crate::starting::{is_nothing, is_start, start_of};
use crate::walking::{OPEN_BATCH, read_list};
use dependency_graph::Graph;
use disk_model::bytes::{byte_in, up_to};
use rollout_rules::EntryList;
use std::alloc::Global;

const OPEN_JOURNAL: u8 = 0x54;

/// What a journal keeps that was judged: where it stands, its start and its list.
#[derive(Drop)]
pub(crate) struct Judged {
    pub found: Found,
    pub start: Vec<u32>,
    pub list: EntryList,
}

/// Judges an image that isn't blank, and brings the graph to its start and list.
pub(crate) fn judge(
    alloc: Global,
    image: &[u8],
    digest: &Digest,
    graph: &mut Graph,
) -> Result<Judged, JournalFault>
    requires empty { graph.old.history ≡ from_nothing graph.old.rollout.problem [] }
    ensures ok { IfOk result
        (λ judged. IsJudged image.now digest.now judged.found judged.start.items judged.list
        graph.old graph.new) }
    ensures err { IfErr result
        (λ fault. IsRefusal fault digest.now
        (judged_journal graph.old.rollout digest.now image.now)) }
    ensures unmoved { IfErr result (λ fault. BeforeList fault (graph.new ≡ graph.old)) }
    ensures left { IfErr result (λ fault. LeavesGraphOf image.now fault graph.old graph.new) }
{
    let first = byte_in(image, 0);
    if first != OPEN_JOURNAL {
        return Err(JournalFault::NotJournal(first));
    }
    match live_side(image) {
        Some(side) => judge_side(alloc, image, side, digest, graph),
        None => Err(JournalFault::NotJournal(first)),
    }
}

fn judge_side(
    alloc: Global,
    image: &[u8],
    side: usize,
    digest: &Digest,
    graph: &mut Graph,
) -> Result<Judged, JournalFault>
    requires journal { numbers.byte_at 0 image.now ≡ open_journal }
    requires side { reading.live_side image.now ≡ Some side }
    requires empty { graph.old.history ≡ from_nothing graph.old.rollout.problem [] }
    ensures ok { IfOk result
        (λ judged. IsJudged image.now digest.now judged.found judged.start.items judged.list
        graph.old graph.new) }
    ensures err { IfErr result
        (λ fault. IsRefusal fault digest.now
        (judged_journal graph.old.rollout digest.now image.now)) }
    ensures unmoved { IfErr result (λ fault. BeforeList fault (graph.new ≡ graph.old)) }
    ensures left { IfErr result (λ fault. LeavesGraphOf image.now fault graph.old graph.new) }
{
    let slot = Slot::at(side, image);
    let kept = judge_part(alloc, &slot, part_of(&slot, image), digest, graph)?;
    let found = found_at(image, side, &slot, kept.gate);
    Ok(Judged {
        found,
        start: kept.start,
        list: kept.list,
    })
}

// What was found of an image, with the gate after the list of the live part.
pub(crate) fn found_at(image: &[u8], side: usize, slot: &Slot, gate: usize) -> Found
    requires journal { numbers.byte_at 0 image.now ≡ open_journal }
    requires side { reading.live_side image.now ≡ Some side }
    requires slot { slot.now ≡ images.slot_at side image.now }
    requires gate { gate < length (drop slot.now.start image.now) }
    ensures { (list : reading.Listed)
        → IsRead slot.now (drop slot.now.start image.now) list gate
        → IsFound result image.now }
{
    let other = other_side(side);
    Found {
        this: side as u64,
        other: other as u64,
        start: slot.start,
        field: slot.field,
        gate: slot.start + gate as u64,
        length: image.len() as u64,
        also: byte_in(image, other) == OPEN_SLOT,
        cut: byte_in(part_of(slot, image), gate) == OPEN_BATCH,
    }
}

fn other_side(side: usize) -> usize
    ensures { result
        ≡ (if side == images.first_side then images.second_side else images.first_side) }
{
    if side == FIRST_SIDE {
        SECOND_SIDE
    } else {
        FIRST_SIDE
    }
}

// What a part keeps that was judged, and where in it the gate after its list stands.
#[derive(Drop)]
struct KeptPart {
    start: Vec<u32>,
    list: EntryList,
    gate: usize,
}

#[tactic(auto, using(crate::proofs::Judgements::of_list))]
fn judge_part(
    alloc: Global,
    slot: &Slot,
    part: &[u8],
    digest: &Digest,
    graph: &mut Graph,
) -> Result<KeptPart, JournalFault>
    requires whole { IsTrue (is_whole slot.now part.now) }
    requires empty { graph.old.history ≡ from_nothing graph.old.rollout.problem [] }
    ensures ok { IfOk result
        (λ kept. IsJudgedPart slot.now part.now digest.now kept.start.items kept.list kept.gate
        graph.old graph.new) }
    ensures err { IfErr result
        (λ fault. IsRefusal fault digest.now
        (judged_part graph.old.rollout digest.now slot.now part.now)) }
    ensures unmoved { IfErr result (λ fault. BeforeList fault (graph.new ≡ graph.old)) }
    ensures left { IfErr result
        (λ fault. LeavesGraph (part_start graph.old.rollout.problem slot.now part.now)
        (part_entries slot.now part.now) fault graph.old graph.new) }
{
    let kept = kept_digest(slot, part);
    if !is_same(&kept, digest) {
        return Err(JournalFault::OtherPlan(kept, *digest));
    }
    let start = start_of(alloc, graph.plan(), slot, part)?;
    if !is_start(alloc, graph.plan(), &start)? {
        return Err(JournalFault::BadStart);
    }
    let (listed, gate) = read_list(alloc, slot, part)?;
    match bring(graph, &start, &listed) {
        Some(place) => Err(illegal_at(place)),
        None => Ok(KeptPart {
            start,
            list: listed.entries,
            gate,
        }),
    }
}

fn kept_digest(slot: &Slot, part: &[u8]) -> Digest
    requires { 32 ≤ length part.now }
    ensures bytes { result.bytes ≡ digest_in part.now }
    ensures migration { result.migration ≡ migration_in slot.now part.now }
{
    let mut bytes = [0; 32];
    bytes.copy_from_slice(up_to(part, 32));
    Digest {
        bytes,
        migration: part::migration_in(slot, part),
    }
}

fn is_same(kept: &Digest, wanted: &Digest) -> bool
    ensures { result
        ≡ (bytes_eq kept.now.bytes wanted.now.bytes
        && (kept.now.migration == wanted.now.migration)) }
{
    kept.bytes == wanted.bytes && kept.migration == wanted.migration
}

// Brings the graph to a start and a list. The first place at which the list is not legal, or has no
// entry.
fn bring(graph: &mut Graph, start: &[u32], listed: &Listed) -> Option<usize>
    requires start { IsTrue (verdicts.is_start graph.old.rollout start.now) }
    requires empty { graph.old.history ≡ from_nothing graph.old.rollout.problem [] }
    ensures place { MatchOption result
        (judged_list graph.old.rollout start.now listed.now ≡ Stands start.now listed.now.entries)
        (λ n. judged_list graph.old.rollout start.now listed.now ≡ NotLegal n) }
    ensures whole { IfNone result (IsTrue listed.now.whole) }
    ensures graph { IfNone result
        (graph.new ≡ with_history graph.old start.now listed.now.entries) }
    ensures stopped { IfSome result
        (λ n. graph.new ≡ with_history graph.old start.now (take n listed.now.entries)) }
{
    begin_at(graph, start);
    let entries = listed.entries.as_slice();
    if let Some(place) = follow_all(graph, entries) {
        return Some(place);
    }
    if listed.whole {
        None
    } else {
        Some(entries.len())
    }
}

// Brings the graph to a start. At the one at which nothing is settled it stands already.
fn begin_at(graph: &mut Graph, start: &[u32])
    requires start { IsTrue (verdicts.is_start graph.old.rollout start.now) }
    requires empty { graph.old.history ≡ from_nothing graph.old.rollout.problem [] }
    ensures { graph.new ≡ record graph.old { history = started start.now } }
{
    if is_nothing(start) {
        return;
    }
    graph.restart(start);
}

fn illegal_at(place: usize) -> JournalFault
    ensures refusal { (digest : Digest) → IsRefusal result digest (NotLegal place) }
    ensures late { IsOfList result }
{
    if place <= u32::MAX as usize {
        JournalFault::Illegal(place as u32)
    } else {
        JournalFault::Memory
    }
}
