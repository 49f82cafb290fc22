// The complement and the sweep of diagrams as walks that count their visits: definitions in specs/, laws in proofs/. No code:
// the crates above cite both.
#![tactic(auto)]
