// Campaigns that pass through saves and reboots (document 02, W2): mathematics only. What happens to a gateway and which of its calls count
// (specs/Restart), and that its state and the claim of demand 3 are those of the calls that count (proofs/Gateway).
#![tactic(auto)]
