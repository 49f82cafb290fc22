// Rules typed as text: what a rule text is, what it means and which rows it makes, in specs/; the theorems on one page in
// proofs/Theorems.antt. No code: the crates above cite both.
#![tactic(auto)]
