//! A name that stands twice: the program has a policy for each name.
use lists::Memory;
use order_policy::Policies;
use std::alloc::Global;
use std::test::Fail;

// What is found under a name that stands for two numbers, and under one that stands for none.
fn found_of_two(alloc: Global) -> Result<[Option<u32>; 2], Memory> {
    let mut policies = Policies::new(alloc);
    policies.add("order", 3)?;
    policies.add("order", 5)?;
    Ok([
        policies.find("order").copied(),
        policies.find("critical").copied(),
    ])
}

#[test]
fn of_two_with_one_name_the_first_is_found(rt: HostRuntime) -> Result<(), Fail> {
    assert_eq!(rt; found_of_two(rt.alloc())?, [Some(3), None]);
    Ok(())
}
