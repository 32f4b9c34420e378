// Holds no code. specs/ says what a run of a monitor is: a course of a machine, and a history of calls;
// proofs/ shows that every course keeps demand 3, that every history on a made sheet is a course, and that an evening takes a history on.
#![tactic(auto)]
