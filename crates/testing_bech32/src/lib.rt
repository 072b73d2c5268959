//! Tests of `bech32`, of its writers, and of `bech32_segwit`, `bech32_detect`, `bech32_correction`
//! and `bech32_near`. Values are rows of `vector_rows`.
#![tactic(auto)]

#[cfg(test)]
mod tests;
