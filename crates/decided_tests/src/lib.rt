// Tests of `tick_decided` and `force_decided`, the two functions on the lent memory as one value that no program of this repository calls.
#![tactic(auto)]

#[cfg(test)]
mod tests;
