// The rows of a rule text, while its words come: find or make a row, what a frame makes when its operand has ended, and the frames that
// wait. The rows are in a table of 64; where a 65th would be made, a function ends by None. Assumes nothing.
#![tactic(auto)]

pub mod frames;
pub mod rows;
pub mod stack;
pub mod table;
