//! A run of a controller that has a term.
ghost use Rattle.std.specs.Prelude.{◌≡◌, Some, drop, IfOk, IfSome};
ghost use Rattle.order_policy.specs.Named.{answers_in};
ghost use Rattle.rollout_log.specs.Logs.{IsLog};
ghost use Rattle.swanroll_top.specs.Views.{guest_told, outside, views_of};
ghost use Rattle.takeover_top.specs.TermPromise.{AtTermPromise};
ghost use Rattle.takeover_top.specs.TermWords.{run_term_by};

use crate::term_words::without_term;
use disk_mirror::Shown;
use fenced_ports::OneTerm;
use order_policy::{Policies, Policy};
use rollout_log::Logged;
use std::alloc::Global;
use std::sync::Wait;
use std::thread::Threads;
use std::time::Clock;
use swanroll_top::{Ended, start_logged};
use text_commands::Unread;
use wan_edge::{Fleet, Sink, Source};

/// Does what the words of a `run` ask for that name a term above 0, over a fleet of that term: it goes on from the
/// journal of a takeover of the term, as a run goes on from its own. No command goes out over a port of the fleet
/// without the term, since its ports are of one term by their type.
///
/// # Premises
///
/// The journal is the one that the takeover of this term placed, and the term is above that of each controller
/// before it. No call can test them.
pub fn run_at_term<
    R: Wait + Threads + Sync,
    S: Source,
    K: Sink,
    D: Shown + Drop + Send,
    L: Sink + Drop + Send,
    C: Clock + Drop + Send,
    F: Fleet + OneTerm,
>(
    rt: &R,
    alloc: Global,
    arguments: Result<Vec<String>, Unread>,
    source: &mut S,
    sink: &mut K,
    notes: &mut K,
    disk: Logged<D, L, C>,
    fleet: &mut F,
    policies: &Policies<Policy>,
) -> Ended<Logged<D, L, C>>
where
    F::Port: Drop + Send,
    requires { IfOk arguments
        (λ all. run_term_by (drop 1 all.items) ≡ Some (F.of_term fleet.old)) }
    ensures runs { AtTermPromise (views_of S.told K.told (λ logged. D.told logged.disk) F.told
        F.Port.told (guest_told F.Guest.Source.told F.Guest.Sink.told)) F.of_term
        (answers_in policies.now) arguments (λ all. all.items)
        (outside source.old sink.old notes.old disk fleet.old) result.status
        (outside source.new sink.new notes.new result.disk fleet.new) }
    ensures logs { IfSome (L.told result.disk.log).written (IsLog D.told) }
{
    match arguments {
        Ok(arguments) => {
            let words = without_term(arguments);
            start_logged(
                rt,
                alloc,
                Ok(words),
                source,
                sink,
                notes,
                disk,
                fleet,
                policies,
            )
        }
        Err(why) => start_logged(
            rt,
            alloc,
            Err(why),
            source,
            sink,
            notes,
            disk,
            fleet,
            policies,
        ),
    }
}
