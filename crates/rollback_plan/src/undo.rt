//! Taking a rollout back operation by operation: why that is safe.
ghost use Rattle.std.specs.Prelude.{◌≡◌, ℕ, ◌<◌, ◌≤◌, slice_index, IsTrue};
ghost use Rattle.rollout_rules.specs.Wan.{Problem, Plan};
ghost use Rattle.rollout_rules.specs.Network.{IsNetwork};
ghost use Rattle.rollout_rules.specs.Items.{item_count};
ghost use Rattle.rollout_rules.specs.History.{History, begun, settled};
ghost use Rattle.rollout_rules.specs.Valid.{is_valid_plan};
ghost use Rattle.rollout_rules.specs.Legal.{is_legal};
ghost use Rattle.rollout_rules.specs.Safe.{IsSafe};
ghost use Rattle.rollout_rules.specs.declared.op.Op.{Op};
ghost use Rattle.rollout_laws.specs.Good.{places_held};
ghost use Rattle.rollback_plan.specs.Undoing.{GoesBack, IsOfTheWay, SomeGoesBack, may_go_back, without};

/// At first all is left. The last operation that is left of an item may be taken back once each one that was
/// begun after its Done is back, and what is on its way back may come there at any time.
pub fn an_operation_goes_back_once_those_behind_it_are_back()
    ensures at_first { (p : Problem) (plan : Plan) (h : History)
        → IsTrue (is_legal p plan h)
        → GoesBack p h (settled h) (begun h) }
    ensures goes { (p : Problem) (h : History) (least most : ℕ → ℕ) (op : Op)
        → GoesBack p h least most
        → op.number ≡ least op.item
        → slice_index h.start op.item < op.number
        → IsTrue (may_go_back most h.entries op)
        → GoesBack p h (without op least) most }
    ensures comes { (p : Problem) (h : History) (least most fewer : ℕ → ℕ)
        → GoesBack p h least most
        → ((n : ℕ) → least n ≤ fewer n)
        → ((n : ℕ) → fewer n ≤ most n)
        → GoesBack p h least fewer }
{}

/// Where something is left after the start, and nothing is on its way back or there, one of the operations that
/// are left may be taken back: so all of them may, one after the other.
pub fn there_is_an_operation_that_may_go_back()
    ensures { (p : Problem) (plan : Plan) (h : History) (left : ℕ → ℕ)
        → IsTrue (is_legal p plan h)
        → ((n : ℕ) → left n ≤ settled h n)
        → (n : ℕ)
        → slice_index h.start n < left n
        → SomeGoesBack h left }
{}

/// Whatever has come back so far of what is on its way, what is left is what a list of the way there allows:
/// of each item no less than that has settled, and no more than it has begun. So it is safe.
pub fn what_is_taken_back_is_of_the_way_there()
    ensures on_the_way { (p : Problem) (plan : Plan) (h : History) (least most held : ℕ → ℕ)
        → IsTrue (is_legal p plan h)
        → GoesBack p h least most
        → ((n : ℕ) → n < item_count p → least n ≤ held n)
        → ((n : ℕ) → n < item_count p → held n ≤ most n)
        → IsOfTheWay p h held }
    ensures safe { (p : Problem) (plan : Plan) (h : History) (least most held : ℕ → ℕ)
        → IsNetwork p
        → IsTrue (is_valid_plan p plan)
        → IsTrue (is_legal p plan h)
        → GoesBack p h least most
        → ((n : ℕ) → n < item_count p → least n ≤ held n)
        → ((n : ℕ) → n < item_count p → held n ≤ most n)
        → IsSafe p plan (places_held p held) }
{}
