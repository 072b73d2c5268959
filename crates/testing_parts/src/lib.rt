//! Tests of the layers up to encoders, and of `bech32_block`: with devices that fail, iterators
//! that misbehave and memory that runs out, and of code over any field. What the layers give is in
//! the stored run of `layer_rows`.
#![tactic(auto)]

#[cfg(test)]
mod tests;
