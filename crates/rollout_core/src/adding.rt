ghost use Rattle.std.specs.Prelude.{◌≡◌, ◌<◌};
ghost use Rattle.rollout_rules.specs.Items.{item_count};
ghost use Rattle.dependency_graph.specs.Ahead.{flies_with};
ghost use Rattle.rollout_core.specs.Adding as adding;

use crate::room::fits;
use dependency_graph::Progress;
use dependency_graph::progress::ahead::{begun, settled};
use dependency_graph::progress::needs::needs_met;
use rollout_rules::{Entry, Op};
use wan_model::CheckedPlan;

/// Whether an operation may begin after what is counted and the entries ahead: it is its item's next,
/// its needs are met, and with it every room fits.
pub(crate) fn may_begin(progress: &Progress, plan: &CheckedPlan, ahead: &[Entry], op: Op) -> bool
    requires { plan.now ≡ progress.now.rollout }
    ensures { result ≡ adding.may_begin plan.now progress.now ahead.now op }
{
    if !is_next(progress, ahead, op) {
        return false;
    }
    if !needs_met(progress, plan, ahead, op.item) {
        return false;
    }
    fits(progress, plan, ahead, op)
}

/// Whether an operation is its item's next, and the item is not in flight.
fn is_next(progress: &Progress, ahead: &[Entry], op: Op) -> bool
    ensures { result ≡ adding.is_next progress.now ahead.now op }
{
    if op.item >= progress.item_count() || flies(progress, ahead, op.item) {
        return false;
    }
    if u64::from(op.number) != settled(progress, ahead, op.item) + 1 {
        return false;
    }
    op.number <= progress.operations(op.item)
}

/// Whether an operation may be done after these: it is in flight.
pub(crate) fn may_end(progress: &Progress, ahead: &[Entry], op: Op) -> bool
    ensures { result ≡ adding.may_end progress.now ahead.now op }
{
    if op.item >= progress.item_count() || !flies(progress, ahead, op.item) {
        return false;
    }
    u64::from(op.number) == settled(progress, ahead, op.item) + 1
}

fn flies(progress: &Progress, ahead: &[Entry], item: u32) -> bool
    requires { item < item_count progress.now.rollout.problem }
    ensures { result ≡ flies_with progress.now ahead.now item }
{
    begun(progress, ahead, item) == settled(progress, ahead, item) + 1
}
