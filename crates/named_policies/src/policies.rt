//! The program's policies, and what each answers.

ghost use Rattle.std.specs.Prelude.{◌≡◌, IfOk};
ghost use Rattle.order_policy.specs.Answers.{rank_by};
ghost use Rattle.order_policy.specs.Named.{answers_in};
ghost use Rattle.rollout_rules.specs.Release.{is_held_back};
ghost use Rattle.named_policies.specs.Policies.{critical, order, freeze, is_frozen, RanksBy, Freezes, named};

use lists::Memory;
use order_policy::{Policies, Policy};
use std::alloc::Global;
use wan_model::OpView;

/// The last rank there is.
const LAST_RANK: u64 = 4_294_967_295;

/// The answer that holds an operation back.
const HELD_BACK: u64 = 4_294_967_296;

/// The operation before the longest chain comes first (Dionysus' critical path).
pub fn critical(view: OpView) -> u64
    ensures { result ≡ critical view }
{
    LAST_RANK - u64::from(view.chain)
}

/// All operations have one rank, so they come in the order of items.
pub fn order(_view: OpView) -> u64
    ensures { result ≡ order _view }
{
    0
}

/// As by chains, but what stands at the ceiling or above it is held back, where there is a ceiling.
pub fn freeze(ceiling: Option<u32>, view: OpView) -> u64
    ensures rank { result ≡ freeze ceiling view }
    ensures held { is_held_back (freeze ceiling) view ≡ is_frozen ceiling view.stage }
{
    match ceiling {
        Some(ceiling) if view.stage >= ceiling => HELD_BACK,
        _ => critical(view),
    }
}

/// The policies by the names under which the words ask for them.
pub fn policies_of(
    alloc: Global,
    by_chain: Policy,
    by_item: Policy,
    frozen: Policy,
) -> Result<Policies<Policy>, Memory>
    requires chain { RanksBy (rank_by by_chain.answers) critical }
    requires item { RanksBy (rank_by by_item.answers) order }
    requires frozen { Freezes (rank_by frozen.answers) }
    ensures { IfOk result
        (λ policies. answers_in policies
        ≡ named (rank_by by_chain.answers) (rank_by by_item.answers) (rank_by frozen.answers)) }
{
    let mut policies = Policies::new(alloc);
    policies.add("critical", by_chain)?;
    policies.add("order", by_item)?;
    policies.add("freeze", frozen)?;
    Ok(policies)
}
