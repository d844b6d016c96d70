//! The planner of few steps over a network of nothing.

use fewest_plan::fewest;
use std::alloc::Global;
use std::test::Fail;
use wan_model::Problem;

// How many rate steps the plan of a network of nothing has.
fn steps_of_nothing(alloc: Global) -> Option<u32> {
    match fewest(alloc, Problem::new(alloc)) {
        Ok(chosen) => Some(chosen.rate_steps),
        Err(_) => None,
    }
}

#[test]
fn where_nothing_is_to_move_no_step_moves_rates(rt: HostRuntime) -> Result<(), Fail> {
    assert_eq!(rt; steps_of_nothing(rt.alloc()), Some(0));
    Ok(())
}
