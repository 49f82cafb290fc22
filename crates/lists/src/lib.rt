// The value lists in the value slice: whether they are right, whether a variable is short of numbers, and how fresh values are written.
// What each function promises is in specs/; the lists themselves are those of `meaning`.
#![tactic(auto)]

mod checking; // checking.rt: the check of the lists
mod writing; // writing.rt: fresh values, and the lowest variable that is short

pub use checking::lists_right;
pub use writing::{shortest, write_fresh};
