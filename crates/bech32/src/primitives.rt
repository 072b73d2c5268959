//! The parts that encoding and decoding are made of.

pub use bech32_checksum::{Bech32, Bech32m, NoChecksum};
pub use bech32_core::{device, encode, hrp, iter};
pub use bech32_decode as decode;
pub use bech32_decode::segwit;
pub use bech32_gf::arithmetic::{Arithmetic, Extension};
pub use bech32_gf::field::{
    Bech32Field, ExtensionField, Field, MultiplicativeOrder, Powers, PowersRange,
};
pub use bech32_gf::gf32;
pub use bech32_gf_ext as gf32_ext;
pub use bech32_poly::fieldvec::NO_ALLOC_MAX_LENGTH;
pub use bech32_poly::lfsr::LfsrIter;

/// Checksums and their engine, which errors a checksum detects, and the code that defines one.
pub mod checksum {
    pub use bech32_block::{NamedField, PrintError, PrintImpl};
    pub use bech32_checksum::{
        Bech32, Bech32m, Checksum, Engine, HrpFe32Iter, LocatorField, Lookup, NoChecksum,
        PackedFe32, PackedNull,
    };
    pub use bech32_detect::{
        accepted_texts_are_far, bursts_are_detected, detects_four, four_errors_are_detected,
    };
}

/// Correction of mistyped texts.
pub mod correction {
    pub use bech32_correction::{
        CorrectError, CorrectableError, Correction, Corrector, ErrorIterator, Listing, Mended,
        NoMemory, Question, bech32_listing, bech32m_listing, correct, listing_of_text,
        listing_of_unchecked, mend, mended_in,
    };
    pub use bech32_poly::fieldvec::NO_ALLOC_MAX_LENGTH;
    pub use bech32_refusals::MAX_DEGREE;
}
