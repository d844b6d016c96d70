ghost use Rattle.std.specs.Prelude.{◌≡◌, drop, IfSome};
ghost use Rattle.order_policy.specs.Named.{answers_in};
ghost use Rattle.rollout_log.specs.Logs.{IsLog};
ghost use Rattle.swanroll_top.specs.Promise.{StartPromise};
ghost use Rattle.swanroll_top.specs.Views.{guest_told, outside, views_of};

use crate::arguments::start;
use crate::top::Ended;
use disk_mirror::Shown;
use order_policy::{Policies, Policy};
use rollout_log::Logged;
use std::alloc::Global;
use std::sync::Wait;
use std::thread::Threads;
use std::time::Clock;
use text_commands::Unread;
use wan_edge::{Fleet, Sink, Source};

/// The same as [`start`], over a disk with a log: what was written to the log is a front of the lines of a list
/// that was durable on the disk, after how many entries it had when the log began.
pub fn start_logged<
    R: Wait + Threads + Sync,
    S: Source,
    K: Sink,
    D: Shown + Drop + Send,
    L: Sink + Drop + Send,
    C: Clock + Drop + Send,
    F: Fleet,
>(
    rt: &R,
    alloc: Global,
    arguments: Result<Vec<String>, Unread>,
    source: &mut S,
    sink: &mut K,
    notes: &mut K,
    disk: Logged<D, L, C>,
    fleet: &mut F,
    policies: &Policies<Policy>,
) -> Ended<Logged<D, L, C>>
where
    F::Port: Drop + Send,
    ensures starts { StartPromise (views_of S.told K.told (λ logged. D.told logged.disk) F.told
        F.Port.told (guest_told F.Guest.Source.told F.Guest.Sink.told)) (answers_in policies.now)
        arguments (λ all. all.items) (outside source.old sink.old notes.old disk fleet.old)
        result.status (outside source.new sink.new notes.new result.disk fleet.new) }
    ensures logs { IfSome (L.told result.disk.log).written (IsLog D.told) }
{
    let ended = start(
        rt, alloc, arguments, source, sink, notes, disk, fleet, policies,
    );
    ended.disk.is_log();
    ended
}
