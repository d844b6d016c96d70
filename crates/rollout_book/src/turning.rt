ghost use Rattle.std.specs.Prelude.{◌≡◌, ◌+◌, ◌<◌, ◌≤◌, ◌++◌, [], length, true, is_ok, vec_len, vec_capacity, IfErr, IfOk, IfSome, OnErr, OnOk};
ghost use Rattle.disk_model.specs.Moments.{LeavesOnly};
ghost use Rattle.intent_journal.specs.Entries.{entry_rows};
ghost use Rattle.intent_journal.specs.Images.{journal_in};
ghost use Rattle.intent_journal.specs.Opened.{HasAdded};
ghost use Rattle.intent_journal.specs.States.{IsBeforeOrAfter};
ghost use Rattle.order_policy.specs.Answers.{rank_by};
ghost use Rattle.update_scheduler.specs.Rounds.{after_round, batch_of};
ghost use Rattle.rollout_book.specs.JournaledRounds.{AreJournaledRounds, turn_of};
ghost use Rattle.rollout_book.specs.Lists.{HasBeforeOrAfter, KeepsOwner};
ghost use Rattle.rollout_book.specs.declared.fault.BookFault.TheVariants as fault;
ghost use Rattle.wan_edge.specs.Streams.{KeepsTelling, Rose};

use crate::fault::BookFault;
use crate::turn::Turn;
use disk_model::Disk;
use intent_journal::Journal;
use order_policy::Policy;
use rollout_rules::Entry;
use update_scheduler::Rounds;
use wan_edge::Failed;

/// Makes the round of what was heard: its batch is one append to the journal, and none where it is empty.
pub(crate) fn turn<D: Disk>(
    rounds: &mut Rounds,
    journal: &mut Journal<D>,
    entries: &mut Vec<Entry>,
    policy: &Policy,
) -> Result<Turn, BookFault>
    requires own { AreJournaledRounds D.told rounds.old journal.old entries.old.items
        (vec_capacity entries.old) }
    requires live { journal.old.live ≡ true }
    ensures own { AreJournaledRounds D.told rounds.new journal.new entries.new.items
        (vec_capacity entries.new) }
    ensures rounds { rounds.new ≡ after_round rounds.old (rank_by policy.now.answers) }
    ensures turn { IfOk result
        (λ turn. turn ≡ turn_of (batch_of rounds.old (rank_by policy.now.answers))) }
    ensures added { OnOk result
        (entries.new.items
        ≡ entries.old.items ++ batch_of rounds.old (rank_by policy.now.answers)) }
    ensures stays { OnErr result (entries.new.items ≡ entries.old.items) }
    ensures live { journal.new.live ≡ is_ok result }
    ensures none { batch_of rounds.old (rank_by policy.now.answers) ≡ []
        → journal.new ≡ journal.old }
    ensures any_moment { IfSome (D.told journal.old.disk).bytes
        (λ _. LeavesOnly D.told journal.old.disk journal.new.disk
        (HasBeforeOrAfter rounds.old.history.start entries.old.items
        (batch_of rounds.old (rank_by policy.now.answers)))) }
    ensures owner { IfSome (D.told journal.old.disk).bytes
        (λ image. LeavesOnly D.told journal.old.disk journal.new.disk (KeepsOwner image)) }
    ensures told { KeepsTelling (D.told journal.old.disk).bytes (D.told journal.new.disk).bytes }
    ensures fault { IfErr result (λ given. given ≡ fault.Disk) }
    ensures cause { OnErr result
        (Rose (D.told journal.old.disk).faults (D.told journal.new.disk).faults) }
    ensures faults { (D.told journal.old.disk).faults ≤ (D.told journal.new.disk).faults }
{
    rounds.round(policy);
    // What it says besides is that the history is legal.
    let _ = rounds.graph();
    let batch = rounds.batch();
    if !batch.is_empty() {
        write_batch(journal, entries, batch)?;
    }
    Ok(Turn {
        dones: rounds.dones(),
        begins: rounds.begins(),
    })
}

// Writes a batch on the journal, and then after the list.
fn write_batch<D: Disk>(
    journal: &mut Journal<D>,
    entries: &mut Vec<Entry>,
    batch: &[Entry],
) -> Result<(), Failed>
    requires live { journal.old.live ≡ true }
    requires some { 0 < length batch.now }
    requires room { journal.old.entries + length batch.now ≤ journal.old.most }
    requires capacity { vec_len entries.old + length batch.now ≤ vec_capacity entries.old }
    ensures any_moment { IfSome (D.told journal.old.disk).bytes
        (λ image. LeavesOnly D.told journal.old.disk journal.new.disk
        (IsBeforeOrAfter (journal_in image) (entry_rows batch.now))) }
    ensures done { OnOk result
        (IfSome (D.told journal.old.disk).bytes
        (λ image. HasAdded batch.now image (D.told journal.new.disk).bytes
        (D.told journal.new.disk).may_leave)) }
    ensures told { KeepsTelling (D.told journal.old.disk).bytes (D.told journal.new.disk).bytes }
    ensures live { journal.new.live ≡ is_ok result }
    ensures count { OnOk result (journal.new.entries ≡ journal.old.entries + length batch.now) }
    ensures most { journal.new.most ≡ journal.old.most }
    ensures cause { OnErr result
        (Rose (D.told journal.old.disk).faults (D.told journal.new.disk).faults) }
    ensures faults { (D.told journal.old.disk).faults ≤ (D.told journal.new.disk).faults }
    ensures added { OnOk result (entries.new.items ≡ entries.old.items ++ batch.now) }
    ensures stays { OnErr result (entries.new.items ≡ entries.old.items) }
    ensures room { vec_capacity entries.old ≤ vec_capacity entries.new }
{
    journal.append(batch)?;
    add_entries(entries, batch);
    Ok(())
}

// Puts entries after a list that has the room.
fn add_entries(entries: &mut Vec<Entry>, batch: &[Entry])
    requires { vec_len entries.old + length batch.now ≤ vec_capacity entries.old }
    ensures added { entries.new.items ≡ entries.old.items ++ batch.now }
    ensures capacity { vec_capacity entries.new ≡ vec_capacity entries.old }
{
    for entry in batch {
        entries.push_reserved(*entry);
    }
}
