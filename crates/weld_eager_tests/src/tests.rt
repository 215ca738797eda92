use crate::both::holds;
use crate::cases::{
    ADD_SUB_MUL_COMPARE, ARITH, Case, GROUP_LIST, GROUP_SUM_COUNT, NUMBERS, OTHER_KINDS,
    SLICE_COLUMN, TAKE_FILTER, TOTALS,
};
use std::alloc::Global;
use std::test::Fail;

/// Both ways come to what is wanted in each of these cases.
fn all_hold(alloc: Global, cases: &[Case]) -> Result<(), Fail> {
    for case in cases {
        if !holds(alloc, case.call, case.given, case.wanted)? {
            return Err(Fail::from(case.wanted));
        }
    }
    Ok(())
}

#[test]
fn sums_differences_products_and_comparisons(rt: HostRuntime) -> Result<(), Fail> {
    all_hold(rt.alloc(), &ADD_SUB_MUL_COMPARE)
}

#[test]
fn operators(rt: HostRuntime) -> Result<(), Fail> {
    all_hold(rt.alloc(), &ARITH)
}

#[test]
fn multiples_choices_dots_and_histograms(rt: HostRuntime) -> Result<(), Fail> {
    all_hold(rt.alloc(), &NUMBERS)
}

#[test]
fn totals(rt: HostRuntime) -> Result<(), Fail> {
    all_hold(rt.alloc(), &TOTALS)
}

#[test]
fn slices_and_columns(rt: HostRuntime) -> Result<(), Fail> {
    all_hold(rt.alloc(), &SLICE_COLUMN)
}

#[test]
fn places_and_filters(rt: HostRuntime) -> Result<(), Fail> {
    all_hold(rt.alloc(), &TAKE_FILTER)
}

#[test]
fn sums_and_counts_by_keys(rt: HostRuntime) -> Result<(), Fail> {
    all_hold(rt.alloc(), &GROUP_SUM_COUNT)
}

#[test]
fn lists_by_keys(rt: HostRuntime) -> Result<(), Fail> {
    all_hold(rt.alloc(), &GROUP_LIST)
}

#[test]
fn numbers_of_the_other_kinds(rt: HostRuntime) -> Result<(), Fail> {
    all_hold(rt.alloc(), &OTHER_KINDS)
}
