//! Every item stands under the path that it has in the Rust crate, and is what its name says.

use self::primitives::correction::{Correction, bech32_listing, bech32m_listing};
use crate::tests::compare::same;
use std::alloc::Global;
use std::marker::PhantomData;

pub mod root {
    pub use bech32::{
        Bech32, Bech32m, ByteIterExt, Checksum, CorrectableError, DecodeError, EncodeError,
        EncodeIoError, Fe32, Fe32IterExt, Fe1024, Fe32768, Hrp, NoChecksum, PrintImpl, decode,
        encode, encode_lower, encode_lower_to_fmt, encode_lower_to_writer, encode_to_fmt,
        encode_to_writer, encode_upper, encode_upper_to_fmt, encode_upper_to_writer,
        encoded_length,
    };
}

pub mod hrp {
    pub use bech32::hrp::{BC, BCRT, Hrp, TB};
}

pub mod segwit {
    pub use bech32::segwit::{
        DecodeError, EncodeError, VERSION_0, VERSION_1, decode, encode,
        encode_lower_to_fmt_unchecked, encode_lower_to_writer_unchecked, encode_to_fmt_unchecked,
        encode_to_writer_unchecked, encode_upper_to_fmt_unchecked,
        encode_upper_to_writer_unchecked, encode_v0, encode_v1, encoded_length,
    };
}

pub mod primitives {
    pub use bech32::primitives::{
        Bech32, Bech32Field, Bech32m, ExtensionField, Field, MultiplicativeOrder,
        NO_ALLOC_MAX_LENGTH, NoChecksum, Powers, PowersRange,
    };

    pub mod checksum {
        pub use bech32::primitives::checksum::{
            Bech32, Bech32m, Checksum, Engine, HrpFe32Iter, NamedField, NoChecksum, PackedFe32,
            PackedNull, PrintError, PrintImpl, detects_four,
        };
    }

    pub mod correction {
        pub use bech32::primitives::correction::{
            CorrectableError, Correction, Corrector, ErrorIterator, MAX_DEGREE,
            NO_ALLOC_MAX_LENGTH, bech32_listing, bech32m_listing,
        };
    }

    pub mod decode {
        pub use bech32::primitives::decode::{
            AsciiToFe32Iter, ByteIter, CharError, CheckedHrpstring, CheckedHrpstringError,
            ChecksumError, CodeLengthError, InvalidResidueError, MAX_DEGREE, PaddingError,
            SegwitCodeLengthError, SegwitHrpstring, SegwitHrpstringError, UncheckedHrpstring,
            UncheckedHrpstringError,
        };
    }

    pub mod device {
        pub use bech32::primitives::device::{ByteSink, ByteSource, FmtSink, Watched};
    }

    pub mod encode {
        pub use bech32::primitives::encode::{
            ByteIter, CharIter, Encoder, Fe32Iter, WitnessVersionIter,
        };
    }

    pub mod gf32 {
        pub use bech32::primitives::gf32::{AlphaIter, Fe32, FromCharError, TryFromError};
    }

    pub mod gf32_ext {
        pub use bech32::primitives::gf32_ext::{Fe32Ext, Fe1024, Fe32768};
    }

    pub mod hrp {
        pub use bech32::primitives::hrp::{
            BC, BCRT, ByteIter, CharIter, Error, Hrp, HrpSink, LowercaseByteIter,
            LowercaseCharIter, TB,
        };
    }

    pub mod iter {
        pub use bech32::primitives::iter::{
            ByteIterExt, BytesToFes, Checksummed, Fe32IterExt, FesToBytes,
        };
    }

    pub mod segwit {
        pub use bech32::primitives::segwit::{
            InvalidWitnessVersionError, MAX_STRING_LENGTH, VERSION_0, VERSION_1,
            WitnessLengthError, is_valid_witness_program_length, is_valid_witness_version,
            validate_witness_program_length, validate_witness_version,
        };
    }
}

// Whether the text of the part `a` and no bytes by a checksum is this one; the checksum is that of
// each of these paths, since paths to two types are not compiled.
fn encodes<Ck: root::Checksum>(alloc: Global, _paths: &[PhantomData<Ck>], want: &str) -> bool {
    let Ok(part) = root::Hrp::parse("a") else {
        return false;
    };
    match root::encode::<Ck>(alloc, part, &[]) {
        Ok(text) => text.as_str() == want,
        Err(_) => false,
    }
}

// Whether each checksum is what its paths say. The texts are test vectors of BIP-173 and BIP-350.
fn checksums(alloc: Global) -> [bool; 3] {
    let bech32 = [
        PhantomData::<root::Bech32>,
        PhantomData::<primitives::Bech32>,
        PhantomData::<primitives::checksum::Bech32>,
    ];
    let bech32m = [
        PhantomData::<root::Bech32m>,
        PhantomData::<primitives::Bech32m>,
        PhantomData::<primitives::checksum::Bech32m>,
    ];
    let no_checksum = [
        PhantomData::<root::NoChecksum>,
        PhantomData::<primitives::NoChecksum>,
        PhantomData::<primitives::checksum::NoChecksum>,
    ];
    [
        encodes(alloc, &bech32, "a12uel5l"),
        encodes(alloc, &bech32m, "a1lqfn3a"),
        encodes(alloc, &no_checksum, "a1"),
    ]
}

// Whether a listing accepts its text.
fn is_accepted<L: Drop, E: Drop>(said: Result<Correction<L>, E>) -> bool {
    matches!(said, Ok(Correction::Accepted))
}

// Whether the listing of each checksum accepts a text.
fn accepted(text: &str) -> [bool; 2] {
    [
        is_accepted(bech32_listing(text, &[])),
        is_accepted(bech32m_listing(text, &[])),
    ]
}

// The sizes by each path.
const SIZES: [usize; 4] = [
    primitives::NO_ALLOC_MAX_LENGTH,
    primitives::correction::NO_ALLOC_MAX_LENGTH,
    primitives::correction::MAX_DEGREE,
    primitives::decode::MAX_DEGREE,
];

// Whether parts are this text.
fn are_part(parts: [root::Hrp; 2], want: &str) -> bool {
    parts[0].as_str() == want && parts[1].as_str() == want
}

// Each listing accepts the text of its own checksum, and not that of the other.
#[test]
fn items_by_each_path(rt: HostRuntime) {
    same(&rt, &checksums(rt.alloc()), &[true; 3]);
    let found = [accepted("a12uel5l"), accepted("a1lqfn3a")];
    same(&rt, &found, &[[true, false], [false, true]]);
    same(&rt, &SIZES, &[7, 7, 25, 25]);
    let parts = [
        are_part([hrp::BC, primitives::hrp::BC], "bc"),
        are_part([hrp::TB, primitives::hrp::TB], "tb"),
        are_part([hrp::BCRT, primitives::hrp::BCRT], "bcrt"),
    ];
    same(&rt, &parts, &[true; 3]);
}
