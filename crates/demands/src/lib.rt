// The demands of the code: what follows from the promises of `start` and `event` alone. No code: proofs/Demands is the page to read.
#![tactic(auto)]
