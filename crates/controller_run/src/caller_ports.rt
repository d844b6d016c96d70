//! The ports of the caller, which takes over those of workers for which no thread was started.
ghost use Rattle.std.specs.Prelude.{◌≡◌, ◌+◌, ◌≤◌, ◌++◌, IsPermutation, length, map, nat_eq, vec_capacity, vec_len, None};
ghost use Rattle.std.specs.List.{IsDistinct};
ghost use Rattle.switch_ports.specs.Hands.{first_sessions};
ghost use Rattle.controller_run.specs.Shifts.{AreFresh};
ghost use Rattle.controller_run.specs.Workers.{Relieves};

use crate::worker::WorkerResult;
use std::alloc::Global;
use switch_ports::{Berth, WorkerPorts};
use turn_lock::Counted;
use wan_edge::Port;

/// The ports that the caller of all workers serves itself, and spare ones, which nobody serves for want of
/// memory.
#[derive(Drop)]
pub(crate) struct CallerPorts<T: Port> {
    pub ports: WorkerPorts<T>,
    pub spare: Vec<Berth<T>>,
}

impl<T: Port + Drop> CallerPorts<T> {
    /// Takes ports over before their first round.
    fn take_over(&mut self, alloc: Global, mut ports: WorkerPorts<T>)
        requires fresh { AreFresh self.old.ports × AreFresh ports }
        requires apart { IsDistinct nat_eq (map (λ t. t.switch) (self.old.ports ++ ports)) }
        requires room { vec_len self.old.spare + length ports ≤ vec_capacity self.old.spare }
        ensures fresh { AreFresh self.new.ports }
        ensures same { IsPermutation
            (self.old.ports ++ (first_sessions self.old.spare.items ++ ports))
            (self.new.ports ++ first_sessions self.new.spare.items) }
        ensures room { vec_capacity self.new.spare ≡ vec_capacity self.old.spare }
    {
        while let Some(berth) = ports.take() {
            let Berth { switch, port } = berth;
            if let Err(port) = self.ports.add(alloc, switch, port) {
                self.spare.push_reserved(Berth { switch, port });
            }
        }
    }

    /// Takes over the ports of a worker that never began. What is left of it then has none.
    pub(crate) fn relieve<V: Counted>(
        &mut self,
        alloc: Global,
        back: WorkerResult<V, T>,
    ) -> WorkerResult<V, T>
        requires fresh { AreFresh self.old.ports }
        requires back { back.end ≡ None
            → AreFresh back.ports
            × IsDistinct nat_eq (map (λ t. t.switch) (self.old.ports ++ back.ports))
            × (vec_len self.old.spare + length back.ports ≤ vec_capacity self.old.spare) }
        ensures fresh { AreFresh self.new.ports }
        ensures room { vec_capacity self.new.spare ≡ vec_capacity self.old.spare }
        ensures pass { result.pass ≡ back.pass }
        ensures end { result.end ≡ back.end }
        ensures ports { Relieves result.end back.ports result.ports
            self.old.ports (first_sessions self.old.spare.items)
            self.new.ports (first_sessions self.new.spare.items) }
    {
        let WorkerResult { pass, ports, end } = back;
        match end {
            Some(_) => WorkerResult { pass, ports, end },
            None => {
                self.take_over(alloc, ports);
                WorkerResult {
                    pass,
                    ports: WorkerPorts::new(alloc),
                    end,
                }
            }
        }
    }
}
