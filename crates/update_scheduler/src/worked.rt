//! Worked examples: which answers tell of an operation in flight, and what entries make of what is
//! in flight.
ghost use Rattle.std.specs.Prelude.{◌≡◌, [], ◌∷◌};
ghost use Rattle.update_scheduler.specs.Endings.{with_told};
ghost use Rattle.rollout_rules.specs.declared.op.Entry.TheVariants.{Begin, Done};
ghost use Rattle.update_scheduler.specs.InFlight.{with_each};
ghost use Rattle.update_scheduler.specs.Worked.{op, one_flies};

/// An answer tells of the operation in flight of its item where its number is at least that one, and once.
pub fn an_answer_tells_once_of_what_is_in_flight()
    ensures told { with_told one_flies [] (op 0 1) ≡ 0 ∷ [] }
    ensures again { with_told one_flies (0 ∷ []) (op 0 2) ≡ 0 ∷ [] }
    ensures below { with_told one_flies [] (op 0 0) ≡ [] }
    ensures idle { with_told one_flies [] (op 1 1) ≡ [] }
    ensures done { with_told one_flies [] (op 2 1) ≡ [] }
{}

/// What is done goes from what is in flight, and what begins comes in at the place of its item.
pub fn what_is_in_flight_follows_entries()
    ensures stays { with_each (op 0 1 ∷ op 2 1 ∷ [])
        (Done (op 2 1) ∷ Begin (op 1 1) ∷ Begin (op 3 1) ∷ [])
        ≡ op 0 1 ∷ op 1 1 ∷ op 3 1 ∷ [] }
    ensures next { with_each (op 2 1 ∷ []) (Done (op 2 1) ∷ Begin (op 2 2) ∷ []) ≡ op 2 2 ∷ [] }
{}
