// Refusals 4 to 8: what is told of a rule text beside its rows. Each is one pass over the words. Definitions of the refusals are in the
// crate text; what a pass tells of the words is in specs/Folds.antt. Assumes nothing.
#![tactic(auto)]

pub mod calls;
pub mod constants;
pub mod counts;
pub mod names;
pub mod noted;
pub mod scopes;
pub mod spans;
