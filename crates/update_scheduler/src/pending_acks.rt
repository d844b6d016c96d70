ghost use Rattle.std.specs.Prelude.{◌≡◌, ℕ, ◌<◌, [], ◌∷◌, ◌++◌, List, All, IfOk};
ghost use Rattle.rollout_rules.specs.Items.{item_count};
ghost use Rattle.update_scheduler.specs.Endings.{with_told};
ghost use Rattle.update_scheduler.specs.Rows.{HasSame, Rises};

use crate::ack_set::AckSet;
use crate::endings::note;
use crate::past_answers::{PastAnswers, also};
use dependency_graph::Graph;
use lists::Memory;
use rollout_rules::Op;
use std::alloc::Global;
use std::marker::Model;

/// What was heard since the last round: the items of which an answer covers the operation in flight, and,
/// for contracts alone, the answers.
#[derive(Drop)]
pub(crate) struct PendingAcks {
    noted: AckSet,
    heard: PastAnswers,
}

impl Model for PendingAcks {
    ghost use Rattle.update_scheduler.specs.PastAnswers.{answers_in};
    ghost use Rattle.update_scheduler.specs.Endings.{Acks};

    ghost Value = { Acks };

    ghost view = { λ t. record {
      items = t.noted.items;
      row = t.noted.row;
      answers = answers_in t.heard;
    } };
}

impl PendingAcks {
    /// Nothing, with room for so many items.
    pub(crate) fn new(alloc: Global, items: u32) -> Result<PendingAcks, Memory>
        ensures { IfOk result (λ told. told ≡ record { items = items; row = []; answers = [] }) }
    {
        Ok(PendingAcks {
            noted: AckSet::new(alloc, items)?,
            heard: PastAnswers::Nothing,
        })
    }

    /// One answer more.
    pub(crate) fn hear(&mut self, graph: &Graph, answer: Op)
        requires item { answer.item < item_count graph.now.rollout.problem }
        requires fits { self.old.items ≡ item_count graph.now.rollout.problem }
        ensures { self.new
            ≡ record self.old {
              row = with_told graph.now.history self.old.row answer;
              answers = self.old.answers ++ answer ∷ [];
            } }
    {
        note(graph, &mut self.noted, answer);
        self.heard = also(&self.heard, answer);
    }

    /// Puts the items in order.
    pub(crate) fn put_in_order(&mut self)
        ensures { (ns : List ℕ)
            → Rises ns
            → HasSame self.old.row ns
            → self.new ≡ record self.old { row = ns } }
    {
        self.noted.put_in_order();
    }

    /// The items.
    pub(crate) fn row(&self) -> &[u32]
        ensures value { result.now ≡ self.now.row }
        ensures items { All (λ n. n < self.now.items) result.now }
    {
        self.noted.row()
    }

    /// Forgets all. Time: what was noted.
    pub(crate) fn forget(&mut self)
        ensures { self.new ≡ record self.old { row = []; answers = [] } }
    {
        self.noted.clear();
        self.heard = PastAnswers::Nothing;
    }
}
