ghost use Rattle.std.specs.Prelude.{◌≡◌};
ghost use Rattle.host_edge.specs.Outboxes.{nothing_sent};

use byte_history::{Count, History};

/// What was sent over one connection, and how often nothing of an offer was, for want of time. It is whole
/// until a part of an offer alone goes out, or the connection ends.
#[derive(Drop)]
pub(crate) struct Outbox {
    pub(crate) is_whole: bool,
    pub(crate) sent: History,
    pub(crate) late: Count,
}

impl Outbox {
    pub(crate) fn new() -> Self
        ensures { result ≡ nothing_sent }
    {
        Outbox {
            is_whole: true,
            sent: History::new(),
            late: Count::new(),
        }
    }
}
