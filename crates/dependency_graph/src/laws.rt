ghost use Rattle.std.specs.Prelude.{◌≡◌, ◌≢◌};
ghost use Rattle.rollout_rules.specs.Wan.{Problem, Plan};
ghost use Rattle.rollout_rules.specs.History.{Places};
ghost use Rattle.dependency_graph.specs.FirstFault.{IsFirstFault};
ghost use Rattle.dependency_graph.specs.declared.start_fault.StartFault.{StartFault};
ghost use Rattle.dependency_graph.specs.declared.start_fault.StartFault.TheVariants as fault;

/// A start breaks one thing first. Lack of memory says nothing of it.
pub fn a_start_breaks_one_thing_first()
    ensures { (p : Problem) (plan : Plan) (at : Places) (f g : StartFault)
        → f ≢ fault.Memory
        → g ≢ fault.Memory
        → IsFirstFault p plan at f
        → IsFirstFault p plan at g
        → f ≡ g }
{}
