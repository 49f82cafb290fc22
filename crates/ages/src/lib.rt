// Ages of bindings, for rules with a time limit: definitions in specs/, laws in proofs/. No code: the crates above cite both.
#![tactic(auto)]
