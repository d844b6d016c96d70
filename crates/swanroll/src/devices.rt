//! What the environment names: the devices, of which one that isn't named fails at each call, and numbers.

ghost use Rattle.std.specs.Prelude.{◌≡◌, IfSome};
ghost use Rattle.named_policies.specs.Saying.{IsSaid};
ghost use Rattle.swanroll.specs.Limits.{limit_in};

use disk_mirror::Mirror;
use host_edge::{FileDisk, FileLog, TcpFleet, WatchedFile};
use named_policies::ceiling_in;
use rollout_log::Logged;
use std::env;
use text_commands::number_in;

/// How long connecting, hearing and writing may take, in milliseconds, where the environment doesn't say.
const USUAL: u64 = 1_000;

/// The most digits of a time limit.
const MOST_DIGITS: usize = 7;

/// A journal's disk with its log.
pub type LoggedFile = Logged<Mirror<FileDisk<HostRuntime>>, FileLog<HostRuntime>, HostRuntime>;

/// The journal's file, `SWANROLL_JOURNAL`, as a disk that reads it when it is opened, with a log in the file
/// that `SWANROLL_LOG` names; where it names none, no list is read for a log.
pub fn journal(rt: HostRuntime) -> LoggedFile
    ensures disk { result.disk.faults ≡ 0 }
    ensures log { result.log.faults ≡ 0 }
{
    let file = FileDisk::new(rt, word_of_environment(rt, "SWANROLL_JOURNAL"));
    let disk = Mirror::new(rt.alloc(), file);
    let path = word_of_environment(rt, "SWANROLL_LOG");
    let asked = !path.is_empty();
    let log = FileLog::new(rt, path);
    Logged::new(rt, rt.alloc(), disk, log, asked)
}

/// The journal's file, `SWANROLL_JOURNAL`, as it stands, whoever has it: nothing can be written to it.
pub fn sight(rt: HostRuntime) -> WatchedFile<HostRuntime>
    ensures { result.faults ≡ 0 }
{
    WatchedFile::new(rt, word_of_environment(rt, "SWANROLL_JOURNAL"))
}

/// The agent's file, `SWANROLL_STATE`, as a disk that reads it when it is opened; None where it isn't named.
pub fn state(rt: HostRuntime) -> Option<Mirror<FileDisk<HostRuntime>>>
    ensures { IfSome result (λ disk. disk.faults ≡ 0) }
{
    let path = word_of_environment(rt, "SWANROLL_STATE");
    if path.is_empty() {
        return None;
    }
    Some(Mirror::new(rt.alloc(), FileDisk::new(rt, path)))
}

/// The switches of the file that `SWANROLL_FLEET` names, and the guests that come to the address
/// `SWANROLL_LISTEN`.
pub fn fleet(rt: HostRuntime) -> TcpFleet<HostRuntime>
    ensures { result.faults ≡ 0 }
{
    let path = word_of_environment(rt, "SWANROLL_FLEET");
    let listen = word_of_environment(rt, "SWANROLL_LISTEN");
    let limit = time_limit(word_of_environment(rt, "SWANROLL_TIMEOUT").as_str());
    TcpFleet::new(rt.alloc(), rt, path, listen, limit)
}

/// The stage from which on the policy `freeze` holds operations back, if the environment says one:
/// `SWANROLL_CEILING`.
pub fn ceiling(rt: HostRuntime) -> Option<u32>
    ensures { IsSaid result }
{
    ceiling_in(word_of_environment(rt, "SWANROLL_CEILING").as_str())
}

/// What stands under a name in the environment; nothing where it isn't there, or isn't text.
fn word_of_environment(rt: HostRuntime, name: &str) -> String {
    env::var(&rt, name).unwrap_or(String::new(rt.alloc()))
}

/// A time limit of 1 to 7 decimal digits above 0, and else the usual one.
fn time_limit(word: &str) -> u64
    ensures { result ≡ limit_in word.now }
{
    if word.len() > MOST_DIGITS {
        return USUAL;
    }
    match number_in(word) {
        Some(number) if number > 0 => u64::from(number),
        _ => USUAL,
    }
}
