// The words of a rule text, and where each ends. What a word is and how it is spelled is in the crate text.
// Total: any bytes, of any length. Assumes nothing.
#![tactic(auto)]

pub mod bytes;
pub mod kinds;
pub mod modes;
pub mod words;
