// The laws of references: what two calls of the walks, one after the other on one table, have in common. Definitions in
// specs/, theorems in proofs/. No code: proofs/References is the page to read.
#![tactic(auto)]
