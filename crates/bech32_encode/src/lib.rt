//! Encodes elements as texts, one character at a time and without memory.
//!
//! Below it: `bech32_checksum`, `bech32_bits`, `io_traits`.
//! Standard: BIP-173, Bech32 and Checksum; BIP-350.
#![tactic(auto)]

ghost use Rattle.std.specs.Prelude.{◌≡◌, ◌++◌, List, Some, None, option_to_list};
ghost use Rattle.bech32_gf.specs.declared.gf32.Fe32.{Fe32 as Element};
ghost use Rattle.bech32_bits.specs.Walks.{EachWalkGives, EachRunGives};

mod adaptor;
mod adaptors;
mod buffer;
mod bytes;
mod checksummed;
mod elements;
mod front;
mod groups;
mod pairs;
mod pieces;
mod text;
mod texts;
mod unique;
mod version;

pub use adaptor::Adaptor;
pub use adaptors::Fe32IterExt;
use bech32_checksum::Checksum;
use bech32_gf::gf32::Fe32;
use bech32_hrp::Hrp;
pub use buffer::put_text;
pub use bytes::ByteIter;
pub use checksummed::Checksummed;
pub use elements::Fe32Iter;
pub use front::put_at_front;
pub use pieces::TextInPieces;
use std::marker::PhantomData;
pub use text::{
    encode_text, length_with_version, put_front_of_text, put_text_of_bytes, put_text_of_part,
    text_in, text_length, text_length_of_part,
};
pub use texts::CharIter;
pub use unique::encoded_text_is_unique;
pub use version::WitnessVersionIter;

/// Encodes the elements of an iterator under a human-readable part, with a witness version before
/// them where there is one: as characters, as bytes, or as the elements that the checksum covers.
#[derive(Clone, PartialEq, Eq, Drop)]
pub struct Encoder<'hrp, I, Ck> {
    elements: I,
    hrp: &'hrp Hrp,
    version: Option<Fe32>,
    checksum: PhantomData<Ck>,
}

impl<'hrp, I: Iterator<Item = Fe32>, Ck: Checksum> Encoder<'hrp, I, Ck> {
    ghost use Rattle.bech32_encode.specs.Encoder.{encoder_elements, encoder_hrp, encoder_version, IsFreshOver};
    ghost use Rattle.bech32_checksum.specs.Encoded.{IsEncodedText, IsEncodedElements};
    ghost use Rattle.bech32_hrp.specs.HrpBytes.{hrp_bytes};

    /// An encoder of the elements under the human-readable part, without a witness version.
    #[inline]
    pub fn new(elements: I, hrp: &'hrp Hrp) -> Self
        ensures elements { encoder_elements result ≡ elements }
        ensures hrp { encoder_hrp result ≡ hrp.now }
        ensures version { encoder_version result ≡ None }
    {
        Encoder {
            elements,
            hrp,
            version: None,
            checksum: PhantomData,
        }
    }

    /// This encoder, with a witness version before the elements. Any element may be one here;
    /// BIP-173 (Segwit address format) allows those up to 16.
    #[inline]
    pub fn with_witness_version(mut self, version: Fe32) -> Self
        ensures elements { encoder_elements result ≡ encoder_elements self.entry }
        ensures hrp { encoder_hrp result ≡ encoder_hrp self.entry }
        ensures version { encoder_version result ≡ Some version }
    {
        self.version = Some(version);
        self
    }

    /// The characters of the text: the human-readable part in lower case, `1`, the version where
    /// there is one, the elements and their checksum (BIP-173, Bech32).
    #[inline]
    pub fn chars(self) -> CharIter<'hrp, I, Ck>
        ensures fresh { IsFreshOver self.entry
            (⟦<CharIter<'hrp, I, Ck> as Adaptor>⟧.source result) }
        ensures gives { (xs : List Element)
            → IsEncodedText Ck.code (hrp_bytes (encoder_hrp self.entry)) xs
            (⟦<CharIter<'hrp, I, Ck> as Adaptor>⟧.gives result xs) }
        // A whole walk gives the text of what a whole walk of the elements gives.
        ensures walk { EachWalkGives I.next_gives (encoder_elements self.entry)
            ⟦<CharIter<'hrp, I, Ck> as Iterator>⟧.next_gives result
            (λ xs. IsEncodedText Ck.code (hrp_bytes (encoder_hrp self.entry))
            (option_to_list (encoder_version self.entry) ++ xs)) }
        ensures runs { EachRunGives I.next_gives (encoder_elements self.entry)
            ⟦<CharIter<'hrp, I, Ck> as Iterator>⟧.next_gives result
            (λ xs. IsEncodedText Ck.code (hrp_bytes (encoder_hrp self.entry))
            (option_to_list (encoder_version self.entry) ++ xs)) }
    {
        CharIter::new(
            self.hrp,
            WitnessVersionIter::new(self.version, self.elements),
        )
    }

    /// The bytes of the text: those of `chars`.
    #[inline]
    pub fn bytes(self) -> ByteIter<'hrp, I, Ck>
        ensures fresh { IsFreshOver self.entry
            (⟦<ByteIter<'hrp, I, Ck> as Adaptor>⟧.source result) }
        ensures gives { (xs : List Element)
            → IsEncodedText Ck.code (hrp_bytes (encoder_hrp self.entry)) xs
            (⟦<ByteIter<'hrp, I, Ck> as Adaptor>⟧.gives result xs) }
        // A whole walk gives the text of what a whole walk of the elements gives.
        ensures walk { EachWalkGives I.next_gives (encoder_elements self.entry)
            ⟦<ByteIter<'hrp, I, Ck> as Iterator>⟧.next_gives result
            (λ xs. IsEncodedText Ck.code (hrp_bytes (encoder_hrp self.entry))
            (option_to_list (encoder_version self.entry) ++ xs)) }
        ensures runs { EachRunGives I.next_gives (encoder_elements self.entry)
            ⟦<ByteIter<'hrp, I, Ck> as Iterator>⟧.next_gives result
            (λ xs. IsEncodedText Ck.code (hrp_bytes (encoder_hrp self.entry))
            (option_to_list (encoder_version self.entry) ++ xs)) }
    {
        ByteIter::new(self.chars())
    }

    /// The elements of the human-readable part, the version where there is one, the elements and
    /// their checksum: what the checksum covers, and it (BIP-173, Checksum).
    #[inline]
    pub fn fes(self) -> Fe32Iter<'hrp, I, Ck>
        ensures fresh { IsFreshOver self.entry
            (⟦<Fe32Iter<'hrp, I, Ck> as Adaptor>⟧.source result) }
        ensures gives { (xs : List Element)
            → IsEncodedElements Ck.code (hrp_bytes (encoder_hrp self.entry)) xs
            (⟦<Fe32Iter<'hrp, I, Ck> as Adaptor>⟧.gives result xs) }
        // A whole walk gives what a whole walk of the elements gives, between those of the part and
        // the checksum.
        ensures walk { EachWalkGives I.next_gives (encoder_elements self.entry)
            ⟦<Fe32Iter<'hrp, I, Ck> as Iterator>⟧.next_gives result
            (λ xs. IsEncodedElements Ck.code (hrp_bytes (encoder_hrp self.entry))
            (option_to_list (encoder_version self.entry) ++ xs)) }
        ensures runs { EachRunGives I.next_gives (encoder_elements self.entry)
            ⟦<Fe32Iter<'hrp, I, Ck> as Iterator>⟧.next_gives result
            (λ xs. IsEncodedElements Ck.code (hrp_bytes (encoder_hrp self.entry))
            (option_to_list (encoder_version self.entry) ++ xs)) }
    {
        Fe32Iter::new(
            self.hrp,
            WitnessVersionIter::new(self.version, self.elements),
        )
    }
}
