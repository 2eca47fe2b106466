// The round robin guarantees: specs/ states them over the arguments of `new` and a list of calls, proofs/ shows them of the definition alone. There is no code here, and only
// what is about whole lists of calls (replay and above) stands on this crate, so that a changed claim leaves the others as they are.
#![tactic(auto)]
