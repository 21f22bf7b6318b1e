#![tactic(auto)]
// Bytes and numbers of scripts: definitions in specs/, theorems about them in proofs/. There is no code here.
