ghost use Rattle.std.specs.Prelude.{◌≡◌, ℕ, List, Ok, Some};
ghost use Rattle.rollout_rules.specs.Wan as wan;
ghost use Rattle.rollout_rules.specs.Network.{IsNetwork};
ghost use Rattle.problem_json.specs.Grammar.{problem_of};
ghost use Rattle.problem_json.specs.declared.place.Place.{Place};
ghost use Rattle.problem_json.specs.GrammarDocuments.{DocumentRead, document_in};
ghost use Rattle.problem_json.specs.Writing.{problem_data};
ghost use Rattle.problem_json.specs.GrammarLeast.{claimed_of};
ghost use Rattle.problem_json.specs.WithinClaims.{IsClaimWithin};
ghost use Rattle.problem_json.specs.WithinLimits.{IsPlanWithin};
ghost use Rattle.problem_json.specs.WritingLeast.{claimed_data};
ghost use Rattle.problem_json.specs.declared.claim.Claim.{Claim};

/// What is written for a problem is read as that problem.
pub fn written_problem_is_read()
    ensures { (place : Place) → (p : wan.Problem) → IsNetwork p
        → problem_of place (problem_data p) ≡ Ok p }
{}

/// What is written for a document with what it says of fewer rate steps is read as both.
pub fn written_claim_is_read()
    ensures { (p : wan.Problem) (plan : wan.Plan) (claim : Claim) → IsNetwork p
        → IsPlanWithin plan
        → IsClaimWithin claim
        → claimed_of (claimed_data p plan claim)
        ≡ Ok (record { document = record { problem = p; plan = plan }; claim = Some claim }) }
{}

/// The plan of a document that was read is within the limits, so that what is written of it can be read again.
pub fn a_plan_that_is_read_is_within()
    ensures { (bytes : List ℕ) (d : DocumentRead)
        → document_in bytes ≡ Ok d
        → IsPlanWithin d.plan }
{}
