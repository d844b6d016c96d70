//! That an agent keeps the rule of terms for each of its items.
ghost use Rattle.std.specs.Prelude.{◌≡◌, ℕ, List, None};
ghost use Rattle.wan_edge.specs.Frames.{CommandFrame, command_bytes, answer_bytes, AnswerFrame};
ghost use Rattle.wan_edge.specs.Switches.{Holdings, after_commands, pair_asked};
ghost use Rattle.takeover_rules.specs.Terms.{floor_after, guarded_after};
ghost use Rattle.fenced_agent.specs.Frames.{floored_bytes, termed_bytes};
ghost use Rattle.fenced_agent.specs.Agents.{FencedHoldings, after_all_termed, after_fenced, guarded_of, plain};

/// Of a command's own item an agent holds what the rule of terms says; of any other item it holds the same
/// as before, under the new floor.
pub fn an_agent_guards_each_item()
    ensures own { (f : FencedHoldings) (term : ℕ) (c : CommandFrame)
        → guarded_of (after_fenced f term c) c.1.item
        ≡ guarded_after (guarded_of f c.1.item) term (pair_asked c) c.1.content }
    ensures others { (f : FencedHoldings) (term : ℕ) (c : CommandFrame) (item : ℕ)
        → (item ≡ c.1.item → ⊥)
        → guarded_of (after_fenced f term c) item
        ≡ record { floor = floor_after f.floor term; holding = f.held item } }
{}

/// Where no command names a term and none was heard, an agent is the plain one: its floor stays 0, and it
/// carries out all by the agent rule. Its frames are the plain ones.
pub fn without_terms_an_agent_is_the_plain_one()
    ensures carried_out { (held : Holdings) (commands : List CommandFrame)
        → after_all_termed (record { floor = 0; held = held }) (plain commands)
        ≡ record { floor = 0; held = after_commands held commands } }
    ensures commands { (c : CommandFrame)
        → termed_bytes (record { term = None; command = c }) ≡ command_bytes c }
    ensures answers { (a : AnswerFrame)
        → floored_bytes (record { floor = None; answer = a }) ≡ answer_bytes a }
{}
