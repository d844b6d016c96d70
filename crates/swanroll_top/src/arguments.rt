ghost use Rattle.order_policy.specs.Named.{answers_in};
ghost use Rattle.swanroll_top.specs.Promise.{StartPromise};
ghost use Rattle.swanroll_top.specs.Views.{guest_told, outside, views_of};

use crate::top::{Ended, swanroll};
use disk_mirror::Openable;
use order_policy::{Policies, Policy};
use std::alloc::Global;
use std::sync::Wait;
use std::thread::Threads;
use text_commands::{CommandEnd, Unread, note, words_of};
use wan_edge::{Fleet, Sink, Source};

/// Does what the program's arguments ask for, of which the first is its own name, and answers its exit
/// status and the disk. Arguments that aren't text are no command line.
pub fn start<R: Wait + Threads + Sync, S: Source, K: Sink, D: Openable + Drop + Send, F: Fleet>(
    rt: &R,
    alloc: Global,
    arguments: Result<Vec<String>, Unread>,
    source: &mut S,
    sink: &mut K,
    notes: &mut K,
    disk: D,
    fleet: &mut F,
    policies: &Policies<Policy>,
) -> Ended<D>
where
    F::Port: Drop + Send,
    ensures { StartPromise (views_of S.told K.told D.told F.told F.Port.told
        (guest_told F.Guest.Source.told F.Guest.Sink.told)) (answers_in policies.now) arguments
        (λ all. all.items) (outside source.old sink.old notes.old disk fleet.old) result.status
        (outside source.new sink.new notes.new result.disk fleet.new) }
{
    match arguments {
        Ok(arguments) => {
            let words = words_of(arguments.as_slice());
            swanroll(rt, alloc, words, source, sink, notes, disk, fleet, policies)
        }
        Err(why) => Ended {
            status: note(alloc, notes, CommandEnd::from(why)),
            disk,
        },
    }
}
