// A log on a card: its bytes and check, records and moments, blocks, what a card says, what mending keeps, and what is written on one.
// Definitions in specs/, laws and theorems in proofs/. No code: the crates above cite both.
#![tactic(auto)]
