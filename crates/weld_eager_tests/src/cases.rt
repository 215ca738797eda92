//! Calls, their arguments, and what each comes to.

mod elementwise;
mod keys;
mod kinds;
mod numbers;
mod places;
mod totals;

pub(crate) use elementwise::{ADD_SUB_MUL_COMPARE, ARITH};
pub(crate) use keys::{GROUP_LIST, GROUP_SUM_COUNT};
pub(crate) use kinds::OTHER_KINDS;
pub(crate) use numbers::NUMBERS;
pub(crate) use places::TAKE_FILTER;
pub(crate) use totals::{SLICE_COLUMN, TOTALS};
use weld_calls::Call;

/// A call on arguments.
pub(crate) struct Case {
    pub(crate) call: Call,
    /// The types of the arguments, and their values.
    pub(crate) given: &'static [(&'static str, &'static str)],
    /// The value as it is written, or `fault`.
    pub(crate) wanted: &'static str,
}
