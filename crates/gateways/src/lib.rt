// A gateway whose program uses the library through saves and reboots (document 02, W2): mathematics only. What its memory holds then
// (specs/Gateway), and that this is what the calls that count leave there, with demand 3 of them (proofs/Gateway).
#![tactic(auto)]
