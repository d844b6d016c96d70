//! All that the program does without a term.
ghost use Rattle.std.specs.Prelude.{◌≡◌, drop, IfOk, IfSome};
ghost use Rattle.order_policy.specs.Named.{answers_in};
ghost use Rattle.rollout_log.specs.Logs.{IsLog};
ghost use Rattle.swanroll_top.specs.Views.{guest_told, outside, views_of};
ghost use Rattle.takeover_top.specs.TermPromise.{IsPlainRest, PlainPromise};
ghost use Rattle.takeover_top.specs.TermWords.{IsPlain, run_term_by};

use crate::term_words::{run_term_of, without_term};
use disk_mirror::Shown;
use order_policy::{Policies, Policy};
use rollout_log::Logged;
use std::alloc::Global;
use std::sync::Wait;
use std::thread::Threads;
use std::time::Clock;
use swanroll_top::{Ended, start_logged};
use text_commands::{Unread, words_of};
use wan_edge::{Fleet, Sink, Source};

/// Does what arguments ask for that name no term above 0. A `run` that names term 0 is the same as one that names
/// none.
pub fn start_plain<
    R: Wait + Threads + Sync,
    S: Source,
    K: Sink,
    D: Shown + Drop + Send,
    L: Sink + Drop + Send,
    C: Clock + Drop + Send,
    F: Fleet,
>(
    rt: &R,
    alloc: Global,
    arguments: Result<Vec<String>, Unread>,
    source: &mut S,
    sink: &mut K,
    notes: &mut K,
    disk: Logged<D, L, C>,
    fleet: &mut F,
    policies: &Policies<Policy>,
) -> Ended<Logged<D, L, C>>
where
    F::Port: Drop + Send,
    requires { IfOk arguments (λ all. IsPlain (run_term_by (drop 1 all.items))) }
    ensures runs { PlainPromise (views_of S.told K.told (λ logged. D.told logged.disk) F.told
        F.Port.told (guest_told F.Guest.Source.told F.Guest.Sink.told)) (answers_in policies.now)
        arguments (λ all. all.items) (outside source.old sink.old notes.old disk fleet.old)
        result.status (outside source.new sink.new notes.new result.disk fleet.new) }
    ensures logs { IfSome (L.told result.disk.log).written (IsLog D.told) }
{
    match arguments {
        Ok(arguments) => {
            let words = plain_words(arguments);
            start_logged(
                rt,
                alloc,
                Ok(words),
                source,
                sink,
                notes,
                disk,
                fleet,
                policies,
            )
        }
        Err(why) => start_logged(
            rt,
            alloc,
            Err(why),
            source,
            sink,
            notes,
            disk,
            fleet,
            policies,
        ),
    }
}

// The arguments, those of a `run` that names term 0 without that pair.
fn plain_words(arguments: Vec<String>) -> Vec<String>
    requires { IsPlain (run_term_by (drop 1 arguments.items)) }
    ensures { IsPlainRest (run_term_by (drop 1 arguments.items)) arguments.items result.items }
{
    match run_term_of(words_of(arguments.as_slice())) {
        Some(_) => without_term(arguments),
        None => arguments,
    }
}
