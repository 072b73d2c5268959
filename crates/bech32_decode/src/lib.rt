//! Reads bech32 texts and tests their checksums.
//!
//! A reader borrows the text and allocates nothing.
//!
//! Below it: `bech32_refusals`.
//! Standard: BIP-173, Bech32 and Segwit address format; BIP-350.
#![tactic(auto)]

mod address;
mod address_data;
mod byte_reader;
mod bytes;
mod characters;
mod checked;
mod data_bytes;
mod eights;
mod either;
mod part_cases;
mod parts;
mod places;
mod reader;
mod reading;
mod residue;
mod unchecked;
mod validation;
pub mod values;
mod version;

pub use address::SegwitHrpstring;
pub use address_data::AddressData;
pub use bech32_refusals::{
    CharError, CheckedHrpstringError, ChecksumError, CodeLengthError, InvalidResidueError,
    MAX_DEGREE, PaddingError, SegwitCodeLengthError, SegwitHrpstringError, UncheckedHrpstringError,
    segwit,
};
pub use byte_reader::ByteIter;
pub use bytes::{BytesError, NotText, text_of};
pub use checked::CheckedHrpstring;
pub use data_bytes::{data_bytes_count, put_data_bytes};
pub use either::validate_either;
pub use parts::{CharacterTests, parts_by};
pub use reader::AsciiToFe32Iter;
pub use reading::Reading;
pub use unchecked::UncheckedHrpstring;
