//! What the contract of the call says together with the rules, as functions that only say it.

ghost use Rattle.rollout_rules.specs.Wan.{Rollout};
ghost use Rattle.std.specs.Prelude.{◌≡◌, ◌≢◌, ℕ, ◌+◌, ◌*◌, ◌≤◌, List, length, Option, Some, Ok, IfSome, IsSome, IsOk};
ghost use Rattle.std.specs.List.{AllByRecursion};
ghost use Rattle.rollout_rules.specs.History.{History};
ghost use Rattle.rollout_rules.specs.Items.{item_count};
ghost use Rattle.rollout_rules.specs.Safe.{IsSafe};
ghost use Rattle.rollout_laws.specs.Good.{places_held};
ghost use Rattle.wan_edge.specs.Switches.{Holdings};
ghost use Rattle.switch_ports.specs.Berths.{FleetPorts};
ghost use Rattle.switch_ports.specs.Homes.{working_homes};
ghost use Rattle.dependency_graph.specs.Graph.{op_total};
ghost use Rattle.rollout_rules.specs.declared.op.OpView.{OpView};
ghost use Rattle.agent_service.specs.Services.{Guests};
ghost use Rattle.intent_journal.specs.States.{Home};
ghost use Rattle.rollback_service.specs.declared.origin.BackFrom.{BackFrom};
ghost use Rattle.wan_edge.specs.Streams.{SinkTrace, SourceTrace};
ghost use Rattle.rollout_report.specs.Watching.{AreMoments, AreReadFrom, Moment};
ghost use Rattle.controller_run.specs.declared.running.Limits.{Limits};
ghost use Rattle.swanroll_top.specs.SameTexts.{AreAskedTheSame};
ghost use Rattle.swanroll_top.specs.Agents.{ServesAs};
ghost use Rattle.text_commands.specs.Answers.{rollout_to};
ghost use Rattle.retarget_service.specs.JournalRoom.{journal_room};
ghost use Rattle.swanroll_top.specs.Live.{LivePromise, WroteOnce};
ghost use Rattle.rollout_report.specs.Journals.{journal_report};
ghost use Rattle.text_commands.specs.Program.{Streams};
ghost use Rattle.swanroll_top.specs.ReportPromise.{ReportsBy};
ghost use Rattle.text_commands.specs.Runs.{IsInput, TellsInput};
ghost use Rattle.swanroll_top.specs.TrialPromise.{TrialPromise};
ghost use Rattle.swanroll_top.specs.Drains.{DrainsAs};
ghost use Rattle.swanroll_top.specs.Ready.{CountsNoFault, GoesOnFrom, IsReadyFor, IsServedFor};
ghost use Rattle.swanroll_top.specs.Rollbacks.{RevertsAs};
ghost use Rattle.swanroll_top.specs.Rollouts.{FleetSeen, RollsAs};
ghost use Rattle.swanroll_top.specs.Joined.{MayHoldNow, TellsHeld, chosen};
ghost use Rattle.swanroll_top.specs.Targets.{RestsHeld, StaysSafe};
ghost use Rattle.sim_run.specs.declared.shape.Shape.{Shape};
ghost use Rattle.swanroll_top.specs.Tries.{IsShape, tried};

use disk_model::Disk;
use file_sight::Sight;
use wan_edge::Fleet;

/// Words that ask for a text of the input alone ask for the same of the program which makes such texts alone
/// and of the whole one, so that what either promises of them is the same.
pub fn both_programs_are_asked_for_the_same_texts()
    ensures { AreAskedTheSame }
{}

/// A report ends with status 0 unless the source, the sink or the disk failed or memory ran out, where the
/// source tells that its input is a document with a valid plan, and the disk no journal yet, or one of this
/// rollout with a legal list.
pub fn a_report_is_written()
    ensures { (migration : ℕ) (before after : Streams) (status : ℕ) (input image : List ℕ)
        (o : Rollout)
        → ReportsBy migration before after status
        → TellsInput before.source after.source input
        → before.stored ≡ Some image
        → rollout_to input ≡ Ok o
        → IsOk (journal_report o migration image)
        → status ≢ 6
        → status ≢ 7
        → status ≢ 8
        → status ≢ 12
        → status ≡ 0 }
{}

/// Where a controller appended to the journal while it was read, each byte at its moment, a live report that ends
/// with status 0 has written the report, for the rollout of its input, of what stood there at one of these moments.
pub fn a_live_report_was_right_once<W: Sight>()
    ensures { (migration : ℕ) (source source_now : SourceTrace) (file file_now : W)
        (sink sink_now notes notes_now : SinkTrace) (status : ℕ)
        (promise : LivePromise W.told migration source source_now file file_now sink sink_now notes
        notes_now status) (home : Home) (moments : List Moment)
        → status ≡ 0
        → AreMoments home moments
        → IfSome promise.does.seen (AreReadFrom 0 moments)
        → WroteOnce migration source source_now moments sink.written sink_now.written }
{}

/// A live report ends with status 0 unless the source, the sink or a reading of the file failed, the file was in
/// use or memory ran out, where the source tells that its input is a document with a valid plan, and what was read
/// of the file is no journal yet, or one of this rollout with a legal list.
pub fn a_live_report_is_written<W: Sight>()
    ensures { (migration : ℕ) (source source_now : SourceTrace) (file file_now : W)
        (sink sink_now notes notes_now : SinkTrace) (status : ℕ)
        (promise : LivePromise W.told migration source source_now file file_now sink sink_now notes
        notes_now status) (input image : List ℕ) (o : Rollout)
        → TellsInput source source_now input
        → promise.does.seen ≡ Some image
        → rollout_to input ≡ Ok o
        → IsOk (journal_report o migration image)
        → status ≢ 6
        → status ≢ 7
        → status ≢ 8
        → status ≢ 12
        → status ≡ 0 }
{}

/// Each trial has a text, since a plan is chosen for each case, and a trial ends with status 0 unless the sink
/// failed or memory ran out.
pub fn a_trial_is_written()
    ensures answered { (policy : OpView → ℕ) (shape : Shape)
        → IsShape shape
        → IsOk (tried policy shape) }
    ensures written { (policy : OpView → ℕ) (shape : Shape) (before after : Streams) (status : ℕ)
        → TrialPromise policy shape before after status
        → status ≢ 6
        → status ≢ 7
        → status ≢ 12
        → status ≡ 0 }
{}

/// An agent ends with status 0 unless the sink or the fleet failed or memory ran out: how many guests came
/// by then the clause on it says.
pub fn an_agent_ends_well<F: Fleet>()
    ensures { (guests : ℕ) (before now : Guests F.Guest) (status : ℕ)
        (out out_now : Option (List ℕ))
        → ServesAs (record { source = F.Guest.Source.told; sink = F.Guest.Sink.told }) guests
        before now status out out_now
        → status ≢ 7
        → status ≢ 9
        → status ≢ 12
        → status ≡ 0 }
{}

/// A run ends with status 0 unless the source, the sink, the disk, the fleet or a port failed or memory ran
/// out, where the source tells that its input is a document with a valid plan, the disk no journal yet, or
/// one of this rollout with a legal list, and the fleet for each switch with an operation a port that is
/// ready; where rounds are given for all that isn't settled; and where the policy holds nothing back. Neither
/// disk, fleet nor port failed where no count of theirs has risen.
pub fn a_run_over_ready_ports_ends_well<D: Disk, F: Fleet>()
    ensures by_status { (limits : Limits) (policy : OpView → ℕ) (source source_now : SourceTrace)
        (disk disk_now : D) (before now : FleetSeen F.Port) (status : ℕ)
        (out out_now : Option (List ℕ)) (r : Rollout) (found : History)
        → RollsAs D.told F.Port.told (IsInput source source_now) limits policy
        disk disk_now before now status out out_now
        → GoesOnFrom limits.migration source source_now (D.told disk).bytes r found
        → IsReadyFor F.Port.told limits policy before.ports.waiting r found
        → status ≢ 6
        → status ≢ 7
        → status ≢ 8
        → status ≢ 9
        → status ≢ 12
        → status ≡ 0 }
    ensures by_counts { (limits : Limits) (policy : OpView → ℕ) (source source_now : SourceTrace)
        (disk disk_now : D) (before now : FleetSeen F.Port) (status : ℕ)
        (out out_now : Option (List ℕ)) (r : Rollout) (found : History)
        → RollsAs D.told F.Port.told (IsInput source source_now) limits policy
        disk disk_now before now status out out_now
        → GoesOnFrom limits.migration source source_now (D.told disk).bytes r found
        → IsReadyFor F.Port.told limits policy before.ports.waiting r found
        → CountsNoFault F.Port.told (D.told disk).faults (D.told disk_now).faults before now
        → status ≢ 6
        → status ≢ 7
        → status ≢ 12
        → status ≡ 0 }
{}

/// A drain ends with status 0 unless the source, the sink, the disk, the fleet or a port failed or memory ran
/// out, where it finds what a run must find to be sure that it finishes, but for a policy, which is its own.
/// Neither disk, fleet nor port failed where no count of theirs has risen.
pub fn a_drain_over_ready_ports_ends_well<D: Disk, F: Fleet>()
    ensures by_status { (limits : Limits) (source source_now : SourceTrace) (disk disk_now : D)
        (before now : FleetSeen F.Port) (status : ℕ) (out out_now : Option (List ℕ)) (r : Rollout)
        (found : History)
        → DrainsAs D.told F.Port.told (IsInput source source_now) limits disk disk_now before now
        status out out_now
        → GoesOnFrom limits.migration source source_now (D.told disk).bytes r found
        → IsServedFor F.Port.told limits before.ports.waiting r found
        → status ≢ 6
        → status ≢ 7
        → status ≢ 8
        → status ≢ 9
        → status ≢ 12
        → status ≡ 0 }
    ensures by_counts { (limits : Limits) (source source_now : SourceTrace) (disk disk_now : D)
        (before now : FleetSeen F.Port) (status : ℕ) (out out_now : Option (List ℕ)) (r : Rollout)
        (found : History)
        → DrainsAs D.told F.Port.told (IsInput source source_now) limits disk disk_now before now
        status out out_now
        → GoesOnFrom limits.migration source source_now (D.told disk).bytes r found
        → IsServedFor F.Port.told limits before.ports.waiting r found
        → CountsNoFault F.Port.told (D.told disk).faults (D.told disk_now).faults before now
        → status ≢ 6
        → status ≢ 7
        → status ≢ 12
        → status ≡ 0 }
{}

/// A rollback, from wherever it is asked to, ends with status 0 unless the source, the sink, the disk, the fleet
/// or a port failed or memory ran out, where it finds what a run must find to be sure that it finishes, but for
/// a policy, which is its own; and where the disk tells its bytes at the end, too. Neither disk, fleet nor port
/// failed where no count of theirs has risen.
pub fn a_rollback_over_ready_ports_ends_well<D: Disk, F: Fleet>()
    ensures by_status { (origin : BackFrom) (limits : Limits) (source source_now : SourceTrace)
        (disk disk_now : D) (before now : FleetSeen F.Port) (status : ℕ)
        (out out_now : Option (List ℕ)) (r : Rollout) (found : History)
        → RevertsAs D.told F.Port.told (IsInput source source_now) origin limits disk disk_now
        before now status out out_now
        → GoesOnFrom limits.migration source source_now (D.told disk).bytes r found
        → IsServedFor F.Port.told limits before.ports.waiting r found
        → IsSome (D.told disk_now).bytes
        → status ≢ 6
        → status ≢ 7
        → status ≢ 8
        → status ≢ 9
        → status ≢ 12
        → status ≡ 0 }
    ensures by_counts { (origin : BackFrom) (limits : Limits) (source source_now : SourceTrace)
        (disk disk_now : D) (before now : FleetSeen F.Port) (status : ℕ)
        (out out_now : Option (List ℕ)) (r : Rollout) (found : History)
        → RevertsAs D.told F.Port.told (IsInput source source_now) origin limits disk disk_now
        before now status out out_now
        → GoesOnFrom limits.migration source source_now (D.told disk).bytes r found
        → IsServedFor F.Port.told limits before.ports.waiting r found
        → IsSome (D.told disk_now).bytes
        → CountsNoFault F.Port.told (D.told disk).faults (D.told disk_now).faults before now
        → status ≢ 6
        → status ≢ 7
        → status ≢ 12
        → status ≡ 0 }
{}

/// The room that the journal of a rollout is given is enough for the slots and three parts, each with every
/// operation begun and done in a batch of its own: so no journal of it is refused for its length.
pub fn a_journal_has_room()
    ensures { (r : Rollout)
        → 35 + 3 * (45 + 4 * item_count r.problem + 28 * op_total r) ≤ journal_room r }
{}

/// Where a run says that the rest is held back, the network is safe as after every rollout that was begun,
/// not every operation is settled, none is in flight, and each that may begin is one that the policy holds
/// back.
pub fn a_rollout_is_held_by_its_policy_alone<D: Disk, F: Fleet>()
    ensures { (limits : Limits) (policy : OpView → ℕ) (source source_now : SourceTrace)
        (disk disk_now : D) (before now : FleetSeen F.Port) (status : ℕ)
        (out out_now : Option (List ℕ))
        → RollsAs D.told F.Port.told (IsInput source source_now) limits policy
        disk disk_now before now status out out_now
        → status ≡ 14
        → RestsHeld D.told F.Port.told limits policy (IsInput source source_now) disk before.ports
        now.ports }
{}

/// What all switches hold together after a rollout, a drain or a rollback that was begun is one of the choices
/// for which the network is safe, with each item whose home has no port where the history found left it: as the
/// ports tell it, and whatever honest switches may hold by what went over their ports.
pub fn what_all_switches_hold_is_safe<D: Disk, F: Fleet>()
    ensures told { (limits : Limits) (source source_now : SourceTrace) (disk : D)
        (before now : FleetPorts F.Port)
        (stays : StaysSafe D.told F.Port.told limits (IsInput source source_now) disk before now)
        (holdings : ℕ → Holdings)
        → AllByRecursion (TellsHeld F.Port.told stays.r limits.migration stays.found now holdings)
        stays.berths
        → IsSafe stays.r.problem stays.r.plan
        (places_held stays.r.problem
        (chosen stays.r limits.migration stays.found
        (working_homes stays.r.problem stays.r.plan) holdings)) }
    ensures untold { (limits : Limits) (source source_now : SourceTrace) (disk : D)
        (before now : FleetPorts F.Port)
        (stays : StaysSafe D.told F.Port.told limits (IsInput source source_now) disk before now)
        (holdings : ℕ → Holdings)
        → AllByRecursion (MayHoldNow F.Port.told stays.r limits.migration stays.found now holdings)
        stays.berths
        → IsSafe stays.r.problem stays.r.plan
        (places_held stays.r.problem
        (chosen stays.r limits.migration stays.found
        (working_homes stays.r.problem stays.r.plan) holdings)) }
{}
