//! Tests of the programs `b32` and `c32`: their replies, and runs over readers and writers that
//! fail.
#![tactic(auto)]

#[cfg(test)]
mod tests;
