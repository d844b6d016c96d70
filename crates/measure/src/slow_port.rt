//! A port that answers after a while.

use lossy_link::FaithfulPort;
use std::alloc::Global;
use std::rt::Clock;
use std::thread::sleep;
use std::time::{Duration, Instant};
use wan_edge::{Failed, Port};

/// How long a switch takes to answer, in milliseconds.
const A_WHILE: u64 = 1;

/// A faithful port whose answers come a while after the last offer.
#[derive(Drop)]
pub(crate) struct SlowPort<'r, R> {
    rt: &'r R,
    port: FaithfulPort,
    offered: Option<Instant>,
}

impl<'r, R: Clock> SlowPort<'r, R> {
    pub(crate) fn new(rt: &'r R, alloc: Global) -> Self {
        SlowPort {
            rt,
            port: FaithfulPort::new(alloc),
            offered: None,
        }
    }

    // Sleeps until the answers to the last offer are there.
    fn wait(&self) {
        let Some(offered) = self.offered else {
            return;
        };
        let enough = Duration::from_millis(A_WHILE);
        let passed = offered.elapsed(self.rt).unwrap_or(enough);
        if passed < enough {
            sleep(self.rt, enough - passed);
        }
    }
}

impl<'r, R: Clock> Port for SlowPort<'r, R> {
    ghost use Rattle.std.specs.Prelude.{Some, true, refl};
    ghost use Rattle.lossy_link.specs.Counting.{told_quiet};
    ghost use Rattle.switch_agent.specs.Items.{holding};
    ghost use Rattle.wan_edge.specs.Switches.{holding_nothing};

    ghost told = { λ p. record {
      offered = Some p.port.offered;
      heard = Some p.port.back.heard;
      held = Some (holding p.port.items);
      quiet = told_quiet p.port.counts;
      waits = Some 0;
      faults = p.port.counts.faults;
      honest = true;
      prompt = true;
      start = holding_nothing;
    } };

    ghost prompt_is_honest = { λ _ _. refl };

    fn offer(&mut self, from: &[u8]) -> Result<(), Failed> {
        self.offered = Instant::now(self.rt).ok();
        self.port.offer(from)
    }

    fn hear(&mut self, into: &mut [u8]) -> Result<usize, Failed> {
        self.wait();
        self.port.hear(into)
    }

    fn is_ready(&mut self) -> bool {
        true
    }

    fn rest(&self) {}
}
