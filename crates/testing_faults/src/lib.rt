//! Tests of the whole library under hostile use: memory that is refused, memory that a C program
//! lends, iterators that misbehave, crafted residues.
#![tactic(auto)]

#[cfg(test)]
mod tests;
