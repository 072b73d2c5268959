//! Tests of `codex32`.
#![tactic(auto)]

#[cfg(test)]
mod tests;
