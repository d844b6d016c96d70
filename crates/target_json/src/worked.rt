//! Worked examples of faults: each function states a fact of a line, and proving it is computing it.
ghost use Rattle.std.specs.Prelude.{◌≡◌, codes};
ghost use Rattle.target_json.specs.Faults.{fault_text};
ghost use Rattle.target_json.specs.Places.{place_of};
ghost use Rattle.target_json.specs.declared.fault.TargetFault.TheVariants.{At, NotJson};
ghost use Rattle.target_json.specs.declared.fault.Wrong.TheVariants.{Kind, Missing};
ghost use Rattle.target_json.specs.declared.key.TargetKey.TheVariants as key;
ghost use Rattle.target_json.specs.declared.place.TargetPart.TheVariants as part;

/// A place is told by the keys that lead to it, from the document's own on.
pub fn a_fault_tells_its_place()
    ensures missing { fault_text (At (place_of part.Top) (Missing key.Target))
        ≡ codes "input: top: missing \"target\"" }
    ensures flows { fault_text (At (place_of part.Target) (Missing key.Flows))
        ≡ codes "input: target: missing \"flows\"" }
    ensures kind { fault_text (At (place_of part.Capacities) Kind)
        ≡ codes "input: target.capacities: wrong kind" }
    ensures none { fault_text NotJson ≡ codes "input: not JSON" }
{}
