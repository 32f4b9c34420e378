// Holds no code: proofs/Demand1, Demand2 and Demand3 state the three demands and prove them; proofs/Runs proves the twelve marked runs.
#![tactic(auto)]
