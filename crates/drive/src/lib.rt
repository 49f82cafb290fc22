// The rows of a rule text, by one pass over its words. A name's arguments and a quantifier's variable are looked at when the name and
// the quantifier come; rows and frames are those of the crate rowing. The pass stops at a 65th row. The definition of the pass is in
// specs/Drives.antt, and what the rows of a text are is in the crate text. Assumes nothing.
#![tactic(auto)]

pub mod known;
pub mod operands;
pub mod operators;
pub mod pass;
