ghost use Rattle.std.specs.Prelude.{◌≡◌, ◌⊎◌, [], All, IsTrue};
ghost use Rattle.order_policy.specs.Answers.{rank_by};
ghost use Rattle.turn_lock.specs.Passes.{IsPassOf, IsSamePass, seat_of_pass, seats_of, seen_of};
ghost use Rattle.shared_book.specs.Calls.{IsCounted};
ghost use Rattle.shared_book.specs.Homes.{homes_of};
ghost use Rattle.shared_book.specs.Lasting.{CountsAsHeard};
ghost use Rattle.switch_ports.specs.Due.{LeavesAlone, any_late};
ghost use Rattle.controller_run.specs.Working.{OnWhole, Settles, Untold};

use crate::exchanging::exchange;
use crate::round_end::RoundEnd;
use crate::settling::settle_late;
use crate::working::WorkerOptions;
use disk_model::Disk;
use shared_book::{BookPass, Listed, Marker, SharedBook};
use std::alloc::Global;
use std::sync::Wait;
use switch_ports::WorkerPorts;
use wan_edge::Port;

/// Hears where switches are late, and no command is to go out. The book is told what came, if anything did.
pub(crate) fn hear_late<'d, R: Wait, D: Disk, M: Marker, T: Port>(
    rt: &R,
    alloc: Global,
    book: &SharedBook<'d, D, M>,
    pass: BookPass<D, M>,
    ports: &mut WorkerPorts<T>,
    terms: WorkerOptions<'_>,
    commands: Listed<D, M>,
) -> (BookPass<D, M>, RoundEnd)
    requires lock { IsPassOf book.now.lock pass.pass }
    requires policy { M.opening.policy ≡ rank_by book.now.policy.now.answers }
    requires calls { IsCounted pass.calls pass.pass }
    requires live { All (λ s. IsTrue s.stream.live) ports.old }
    requires home { terms.homes.now ≡ homes_of M.opening.rollout.problem }
    requires migration { terms.migration ≡ M.migration }
    requires told { CountsAsHeard T.told terms.migration M.heard }
    requires alone { LeavesAlone terms.homes.now commands ports.old }
    requires none { commands ≡ [] }
    requires late { IsTrue (any_late ports.old) }
    ensures lock { IsPassOf book.now.lock result.0.pass }
    ensures pass { IsSamePass pass.pass result.0.pass }
    ensures calls { IsCounted result.0.calls result.0.pass }
    ensures live { OnWhole result.1 (All (λ s. IsTrue s.stream.live) ports.new) }
    ensures carried_out { Settles T.told M.opening (seats_of pass.pass) (seat_of_pass pass.pass)
        terms.entry.migration terms.entry.homes.now commands
        (record { seen = seen_of pass.pass; ports = ports.old }) result.1
        (record { seen = seen_of result.0.pass; ports = ports.new })
        ⊎ Untold T.told
        terms.entry.migration terms.entry.homes.now commands
        (record { seen = seen_of pass.pass; ports = ports.old }) result.1
        (record { seen = seen_of result.0.pass; ports = ports.new }) }
{
    match exchange(alloc, ports, &commands, terms.homes, terms.migration) {
        Ok(heard) => settle_late(rt, book, pass, ports, heard),
        Err(cause) => (pass, RoundEnd::Stops(cause)),
    }
}
