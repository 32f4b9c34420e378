// Holds no code. specs/ says what it is that a function has one answer, and that it keeps a promise: of the contract that stands over it in src/.
#![tactic(auto)]
