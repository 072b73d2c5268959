//! The tests of a text's characters, one at a time.

use bech32_decode::CharacterTests;

/// The short tests: the bodies that the trait has.
pub(crate) enum Short {}

impl CharacterTests for Short {}
