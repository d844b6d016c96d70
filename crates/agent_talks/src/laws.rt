//! What a read is where no command names a term.
ghost use Rattle.std.specs.Prelude.{◌≡◌, ◌≢◌, ℕ, List, Option, slice_index};
ghost use Rattle.agent_talks.specs.Serving as termed;
ghost use Rattle.agent_talks.specs.Serving.{IsCutTermed};
ghost use Rattle.fenced_agent.specs.Agents.{FencedItems, plain};
ghost use Rattle.fenced_agent.specs.Frames.{fence_kind};
ghost use Rattle.switch_agent.specs.Serving.{CarriesOut};
ghost use Rattle.switch_agent.specs.declared.serve_fault.Served.{Served};
ghost use Rattle.wan_edge.specs.Frames.{CommandFrame, IsCutCommand};

/// Where no term was heard, and none of the commands that were carried out names one, nor what stands after
/// them begins with one, all is as it is by the agent rule without terms: what was carried out, what is held,
/// what was answered, and why it ended. The floor stays 0.
pub fn without_terms_a_read_is_the_plain_one()
    ensures plain { (before now : FencedItems) (bytes : List ℕ) (served : Served)
        (w w' : Option (List ℕ))
        → before.floor ≡ 0
        → (carried : termed.CarriesOut before now bytes served IsCutTermed w w')
        → (commands : List CommandFrame)
        → carried.commands ≡ plain commands
        → slice_index carried.rest 0 ≢ fence_kind
        → CarriesOut before.items now.items bytes served IsCutCommand w w' }
    ensures floor { (before now : FencedItems) (bytes : List ℕ) (served : Served)
        (w w' : Option (List ℕ))
        → before.floor ≡ 0
        → (carried : termed.CarriesOut before now bytes served IsCutTermed w w')
        → (commands : List CommandFrame)
        → carried.commands ≡ plain commands
        → now.floor ≡ 0 }
{}
