//! A takeover from the arguments of the program on.
ghost use Rattle.std.specs.Prelude.{◌≡◌, Some, drop, option_map, IfOk, IfSome};
ghost use Rattle.order_policy.specs.Named.{answers_in};
ghost use Rattle.rollout_log.specs.Logs.{IsLog};
ghost use Rattle.swanroll_top.specs.Views.{guest_told, outside, views_of};
ghost use Rattle.takeover_top.specs.TakeoverPromise.{ByWords, StartsTakeover};
ghost use Rattle.takeover_top.specs.TakingWords.{taking_by, term_of};

use crate::taking::{Taken, take};
use crate::taking_words::taking_of;
use crate::telling::tell;
use disk_mirror::{Openable, Shown};
use fenced_ports::OneTerm;
use order_policy::{Policies, Policy};
use rollout_log::Logged;
use std::alloc::Global;
use std::sync::Wait;
use std::thread::Threads;
use std::time::Clock;
use swanroll_top::Ended;
use text_commands::{CommandEnd, Unread, note, words_of};
use wan_edge::{Fleet, Sink, Source};

/// Takes the rollout of the document over that stands in the source, for a controller of the term that the
/// arguments name, over a fleet of that term: the switches are fenced and asked, what they told is tested, a journal
/// that begins there takes the place of the one on the disk, and the rest is rolled out from it. The policies are
/// those that the words may name. A log has what the rollout wrote, as that of a run.
///
/// No command goes out over a port of the fleet without the term, since its ports are of one term by their type. So
/// also while the call waits: each frame that a switch was sent has the term in front.
///
/// # Premises
///
/// The migration began with start 0 of every item, which that of a rollback didn't; the term is above that of each
/// controller before; the document is that of the controller before; and no agent was started anew without what it
/// held. No call can test them.
///
/// | Status | Comes |
/// |---|---|
/// | 0 | the rollout is finished, and its line was written |
/// | 2 | the words are none of a takeover |
/// | 3 | the input is above its limit, isn't a document, or its plan breaks a clause |
/// | 5 | the rounds were spent: of questions, at operation 0, or of the rollout |
/// | 6 | the source failed |
/// | 7 | the sink failed |
/// | 8 | the disk failed |
/// | 9 | the fleet failed to give a port, or a port failed |
/// | 10 | what stands on the disk is neither blank nor a journal |
/// | 11 | a switch told what can't be, or holds a pair that can't be taken over |
/// | 12 | memory ran out |
/// | 13 | what the switches hold is no start of the rollout |
/// | 14 | the policy holds back all that is left |
pub fn take_over<
    R: Wait + Threads + Sync,
    S: Source,
    K: Sink,
    D: Shown + Drop + Send,
    L: Sink + Drop + Send,
    C: Clock + Drop + Send,
    F: Fleet + OneTerm,
>(
    rt: &R,
    alloc: Global,
    arguments: Result<Vec<String>, Unread>,
    source: &mut S,
    sink: &mut K,
    notes: &mut K,
    disk: Logged<D, L, C>,
    fleet: &mut F,
    policies: &Policies<Policy>,
) -> Ended<Logged<D, L, C>>
where
    F::Port: Drop + Send,
    requires { IfOk arguments
        (λ all. option_map term_of (taking_by (answers_in policies.now) (drop 1 all.items))
        ≡ Some (F.of_term fleet.old)) }
    ensures takes { StartsTakeover (views_of S.told K.told (λ logged. D.told logged.disk) F.told
        F.Port.told (guest_told F.Guest.Source.told F.Guest.Sink.told)) F.of_term
        (answers_in policies.now) arguments (λ all. all.items)
        (outside source.old sink.old notes.old disk fleet.old) result.status
        (outside source.new sink.new notes.new result.disk fleet.new) }
    ensures logs { IfSome (L.told result.disk.log).written (IsLog D.told) }
{
    let ended = take_over_from(
        rt, alloc, arguments, source, sink, notes, disk, fleet, policies,
    );
    ended.disk.is_log();
    ended
}

fn take_over_from<
    R: Wait + Threads + Sync,
    S: Source,
    K: Sink,
    D: Openable + Drop + Send,
    F: Fleet + OneTerm,
>(
    rt: &R,
    alloc: Global,
    arguments: Result<Vec<String>, Unread>,
    source: &mut S,
    sink: &mut K,
    notes: &mut K,
    disk: D,
    fleet: &mut F,
    policies: &Policies<Policy>,
) -> Ended<D>
where
    F::Port: Drop + Send,
    requires { IfOk arguments
        (λ all. option_map term_of (taking_by (answers_in policies.now) (drop 1 all.items))
        ≡ Some (F.of_term fleet.old)) }
    ensures { StartsTakeover (views_of S.told K.told D.told F.told F.Port.told
        (guest_told F.Guest.Source.told F.Guest.Sink.told)) F.of_term (answers_in policies.now)
        arguments (λ all. all.items) (outside source.old sink.old notes.old disk fleet.old)
        result.status (outside source.new sink.new notes.new result.disk fleet.new) }
{
    match arguments {
        Ok(arguments) => {
            let words = words_of(arguments.as_slice());
            take_over_by(rt, alloc, words, source, sink, notes, disk, fleet, policies)
        }
        Err(why) => Ended {
            status: note(alloc, notes, CommandEnd::from(why)),
            disk,
        },
    }
}

// The same by the words.
fn take_over_by<
    R: Wait + Threads + Sync,
    S: Source,
    K: Sink,
    D: Openable + Drop + Send,
    F: Fleet + OneTerm,
>(
    rt: &R,
    alloc: Global,
    words: &[String],
    source: &mut S,
    sink: &mut K,
    notes: &mut K,
    disk: D,
    fleet: &mut F,
    policies: &Policies<Policy>,
) -> Ended<D>
where
    F::Port: Drop + Send,
    requires term { option_map term_of (taking_by (answers_in policies.now) words.now)
        ≡ Some (F.of_term fleet.old) }
    ensures { ByWords (views_of S.told K.told D.told F.told F.Port.told
        (guest_told F.Guest.Source.told F.Guest.Sink.told)) F.of_term
        (taking_by (answers_in policies.now) words.now)
        (outside source.old sink.old notes.old disk fleet.old) result.status
        (outside source.new sink.new notes.new result.disk fleet.new) }
{
    match taking_of(words, policies) {
        Some(taking) => {
            let Taken { ending, disk } = take(
                rt,
                alloc,
                taking.limits,
                taking.policy,
                source,
                sink,
                disk,
                fleet,
            );
            let status = tell(alloc, notes, ending);
            Ended { status, disk }
        }
        None => Ended {
            status: note(alloc, notes, CommandEnd::Usage),
            disk,
        },
    }
}
