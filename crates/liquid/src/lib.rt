//! Confidential addresses of Liquid: a blinding key and a witness program, by the checksum Blech32.
//!
//! Only addresses of witness version 0 are read and written. Those of versions 1 to 16 have another
//! checksum, Blech32m, and are refused with an error of their own. Texts are corrected by the calls
//! for any checksum, `bech32::correct::<Blech32>` and `bech32::nearest::<Blech32>`: the bound is
//! six, so three wrong characters are corrected, or six erasures.
//!
//! Below it: `bech32_decode`, `bech32_encode`, `bech32_numbers`, `blech32`.
//! Standard: Elements, `src/blech32.cpp` and `src/key_io.cpp`.
#![tactic(auto)]

mod address;
mod error;
mod numbers;
mod reading;
mod writing;

pub use self::address::{Address, KEY_LENGTH};
pub use self::error::{DecodeError, EncodeError};
pub use self::numbers::{decode_error_number, encode_error_number};
pub use self::reading::decode;
pub use self::writing::{address_length, encode_in, put_address, validate};
/// Another name of [`encode_in`].
pub use self::writing::encode_in as encode;
pub use blech32::Blech32;
