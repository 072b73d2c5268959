//! The writers of `bech32` and of `bech32::segwit`.

mod bytes;
mod each;
mod forms;
mod given;
mod known;
mod texts;
