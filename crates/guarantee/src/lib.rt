// Demand 3: one theorem about every run from a fresh board. It is about the definitions of the steps, so there is no
// code here: specs/ has the log of a run and the claim, proofs/ the theorem.
#![tactic(auto)]
