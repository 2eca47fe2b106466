// The scheduler's types that proofs by hand pass by value, with their laws (proofs/Types.antt). It has no code.
#![tactic(auto)]
