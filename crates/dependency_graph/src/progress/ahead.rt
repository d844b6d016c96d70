ghost use Rattle.std.specs.Prelude.{◌≡◌, ◌+◌, ◌≤◌, ◌<◌, ◌^◌, ◌∷◌, [], length};
ghost use Rattle.rollout_rules.specs.Wan as wan;
ghost use Rattle.rollout_rules.specs.Items.{item_count};
ghost use Rattle.rollout_rules.specs.History.{begins_in, dones_in};
ghost use Rattle.dependency_graph.specs.Ahead as places;

use crate::changes::stand_after;
use crate::progress::Progress;
use rollout_rules::{Entry, Op};
use wan_model::CheckedPlan;

/// The stage at which an item stands with the entries ahead.
pub(crate) fn stand(progress: &Progress, plan: &CheckedPlan, ahead: &[Entry], item: u32) -> usize
    requires own { plan.now ≡ progress.now.rollout }
    requires item { item < item_count plan.now.problem }
    ensures value { result ≡ places.stand_with plan.now progress.now ahead.now item }
    ensures within { result ≤ wan.last_stage plan.now.plan }
{
    let dones = dones(ahead, item);
    if dones == 0 {
        return progress.stands.stage(item) as usize;
    }
    let settled = u64::from(progress.settled[item as usize]) + dones;
    stand_after(plan, progress.lookup().item(item), settled) as usize
}

/// How many of an item's operations are settled with the entries ahead.
pub fn settled(progress: &Progress, ahead: &[Entry], item: u32) -> u64
    requires { item < item_count progress.now.rollout.problem }
    ensures value { result ≡ places.settled_with progress.now ahead.now item }
    ensures few { result < 2 ^ 63 + 2 ^ 32 }
{
    u64::from(progress.settled[item as usize]) + dones(ahead, item)
}

/// How many of them were begun with the entries ahead.
pub fn begun(progress: &Progress, ahead: &[Entry], item: u32) -> u64
    requires { item < item_count progress.now.rollout.problem }
    ensures value { result ≡ places.begun_with progress.now ahead.now item }
    ensures few { result < 2 ^ 63 + 2 ^ 32 }
{
    u64::from(progress.begun[item as usize]) + begins(ahead, item)
}

/// Whether an operation of an item flies once `op` has begun after the entries ahead.
pub(crate) fn flies_begun(progress: &Progress, ahead: &[Entry], op: Op, item: u32) -> bool
    requires { item < item_count progress.now.rollout.problem }
    ensures { result ≡ places.flies_begun progress.now ahead.now op item }
{
    let begins = u64::from(op.item == item);
    begun(progress, ahead, item) + begins == settled(progress, ahead, item) + 1
}

fn dones(entries: &[Entry], item: u32) -> u64
    ensures value { result ≡ dones_in entries.now item }
    ensures few { result < 2 ^ 63 }
{
    let mut count = 0;
    for entry in entries {
        count += u64::from(settles(*entry, item));
    }
    count
}

fn begins(entries: &[Entry], item: u32) -> u64
    ensures value { result ≡ begins_in entries.now item }
    ensures few { result < 2 ^ 63 }
{
    let mut count = 0;
    for entry in entries {
        count += u64::from(starts(*entry, item));
    }
    count
}

fn settles(entry: Entry, item: u32) -> bool
    ensures { result ≡ places.settles entry item }
{
    match entry {
        Entry::Begin(_) => false,
        Entry::Done(op) => op.item == item,
    }
}

fn starts(entry: Entry, item: u32) -> bool
    ensures { result ≡ places.starts entry item }
{
    match entry {
        Entry::Begin(op) => op.item == item,
        Entry::Done(_) => false,
    }
}
