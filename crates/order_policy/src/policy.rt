ghost use Rattle.std.specs.Prelude.{◌≡◌, ℕ, ◌≤◌, IsTrue};
ghost use Rattle.order_policy.specs.Answers.{AreAnswers, AreAnswers-prop, is_view, rank_by, last_rank};
ghost use Rattle.rollout_rules.specs.Release.{held_back, is_held_back};
ghost use Rattle.rollout_rules.specs.declared.op.OpView.{OpView};

use wan_model::OpView;

/// The answer that holds an operation back.
const HELD_BACK: u64 = 4_294_967_296;

/// In which order operations are to begin, and which are to wait: what a closure answers of each.
///
/// Contracts see it as a function of the view, `rank_by policy.answers`: its type keeps that the closure
/// may be called on each view and has one answer there, at most the number that holds back.
#[derive(Drop)]
pub struct Policy {
    ask: Box<dyn Fn(OpView) -> u64 + Send + Sync>,
    ghost callable: { IsAlwaysCallable ask },
    pub ghost answers: { AreAnswers held_back (λ view. post ask view) } by { AreAnswers-prop },
}

impl Policy {
    /// A policy that holds no operation back. The closure answers ranks.
    pub fn new(ask: Box<dyn Fn(OpView) -> u64 + Send + Sync>) -> Policy
        requires callable { IsAlwaysCallable ask }
        requires answers { AreAnswers last_rank (λ view. post ask view) }
        ensures ranks { (view : OpView) (rank : ℕ)
            → IsTrue (is_view view)
            → post ask view rank
            → rank ≡ rank_by result.answers view }
        ensures unheld { (view : OpView) → rank_by result.answers view ≤ last_rank }
    {
        Policy::holding(ask)
    }

    /// A policy that holds those operations back of which the closure answers 4,294,967,296; its other
    /// answers are ranks.
    pub fn holding(ask: Box<dyn Fn(OpView) -> u64 + Send + Sync>) -> Policy
        requires callable { IsAlwaysCallable ask }
        requires answers { AreAnswers held_back (λ view. post ask view) }
        ensures { (view : OpView) (rank : ℕ)
            → IsTrue (is_view view)
            → post ask view rank
            → rank ≡ rank_by result.answers view }
    {
        Policy { ask }
    }

    /// What the closure answers: operations of a lower rank are tried earlier.
    pub fn rank(&self, view: OpView) -> u64
        ensures { result ≡ rank_by self.now.answers view }
    {
        (self.ask)(view)
    }

    /// Whether the operation is held back.
    pub fn holds(&self, view: OpView) -> bool
        ensures { result ≡ is_held_back (rank_by self.now.answers) view }
    {
        self.rank(view) == HELD_BACK
    }
}
