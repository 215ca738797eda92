use crate::uses::accepting::accept_program;
use crate::uses::programs::{column, left_over, made_in_arms, merged_once};
use std::test::Fail;
use weld_tree::{Code, Refusal};
use weld_uses::check_uses;

#[test]
fn a_builder_that_is_used_once_is_accepted(rt: HostRuntime) -> Result<(), Fail> {
    let alloc = rt.alloc();
    assert!(rt; check_uses(alloc, &merged_once(alloc)?).is_ok());
    assert!(rt; accept_program(alloc, merged_once(alloc)?).is_ok());
    Ok(())
}

#[test]
fn a_builder_that_is_left_is_refused_at_its_binder(rt: HostRuntime) -> Result<(), Fail> {
    let alloc = rt.alloc();
    let wanted = Some(Refusal::At(Code::L1, column(5)));
    assert_eq!(rt; check_uses(alloc, &left_over(alloc)?).err(), wanted);
    assert_eq!(rt; accept_program(alloc, left_over(alloc)?).err(), wanted);
    Ok(())
}

#[test]
fn arms_that_make_builders_are_refused_at_the_if(rt: HostRuntime) -> Result<(), Fail> {
    let alloc = rt.alloc();
    let wanted = Some(Refusal::At(Code::L4, column(8)));
    assert_eq!(rt; check_uses(alloc, &made_in_arms(alloc)?).err(), wanted);
    assert_eq!(rt; accept_program(alloc, made_in_arms(alloc)?).err(), wanted);
    Ok(())
}
