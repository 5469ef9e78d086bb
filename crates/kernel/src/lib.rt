// Document 01's kernel of the ledger: mathematics only. The definitions of the leaves, put together as steps 1 to 6 use
// them (specs/De), the laws that the ledger asks of them, with demand 3 (proofs/Kernel), and the ledger's closing
// against the code's selection (proofs/Link).
#![tactic(auto)]
