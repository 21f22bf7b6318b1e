#![tactic(auto)]
// The layouts of the buffer: definitions in specs/, theorems about them in proofs/. There is no code here.
