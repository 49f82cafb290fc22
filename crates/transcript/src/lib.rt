// What the program prints for an input, for any bytes whatever. Definitions in specs/, theorems in proofs/. No code: specs/Output
// is the page to read.
#![tactic(auto)]
