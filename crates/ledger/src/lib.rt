// Nothing runs here: the crate holds the definitions of demand 3 and the proof that it holds (specs/Claim.antt, proofs/Theorem.antt).
#![tactic(auto)]
