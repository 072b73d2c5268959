//! The replies of the program `b32` to the lines of its input.
//!
//! Below it: `bech32`, `bech32_numbers`, `liquid`, `line_program`.
//! Standard: BIP-173; BIP-350; Elements, `src/blech32.cpp` and `src/key_io.cpp`.
#![tactic(auto)]

mod append;
mod command;
mod confidential;
mod content;
mod correct;
mod decode;
mod elements;
mod encode;
pub mod error;
pub mod hex_word;
pub mod laws;
mod location_word;
mod long;
mod long_command;
mod long_reply;
mod part_word;
mod refusal;
pub mod reply;
pub mod run;
mod segwit_decode;
mod segwit_encode;
mod version_word;
mod words;

pub use command::{ChecksumName, checksum_named};
pub use location_word::{locations_of_word, seven_locations_of_word};
pub use refusal::Refusal;
pub use version_word::number_of_word;
pub use words::{three_words, two_words};
