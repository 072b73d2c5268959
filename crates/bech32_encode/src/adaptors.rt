//! Adaptors of iterators of elements.

ghost use Rattle.std.specs.Prelude.{true, false, None, List, ◌≡◌};
ghost use Rattle.std.specs.Iterator.Adapters.{fuse_source, fuse_done};
ghost use Rattle.bech32_gf.specs.declared.gf32.Fe32.{Fe32};
ghost use Rattle.bech32_bits.specs.Bits.{to_bytes, to_bytes_zeropad};
ghost use Rattle.bech32_bits.specs.Walks.{EachWalkGives, EachRunGives};

use crate::Encoder;
use bech32_bits::FesToBytes;
use bech32_checksum::Checksum;
use bech32_gf::gf32::Fe32;
use bech32_hrp::Hrp;

/// Adaptors of iterators of elements.
pub trait Fe32IterExt: Iterator<Item = Fe32> {
    ghost use Rattle.bech32_bits.specs.FesToBytes.{bytes_source, bytes_gives, bytes_padded, bytes_steps};
    ghost use Rattle.bech32_encode.specs.Encoder.{encoder_elements, encoder_hrp, encoder_version};

    /// The bytes of the elements, with a last part shorter than eight bits dropped (BIP-173, Segwit
    /// address format).
    #[inline]
    final fn fes_to_bytes(self) -> FesToBytes<Self>
    where
        Self: Sized,
        ensures source { fuse_source (bytes_source result) ≡ self }
        ensures fresh { fuse_done (bytes_source result) ≡ false }
        ensures padded { bytes_padded result ≡ false }
        ensures gives { (fes : List Fe32) → bytes_gives result fes ≡ to_bytes fes }
        // A whole walk gives the bytes of what a whole walk of the elements gives.
        ensures walk { EachWalkGives Self.next_gives self (bytes_steps Self.next_gives) result
            (λ fes bytes. bytes ≡ to_bytes fes) }
        ensures runs { EachRunGives Self.next_gives self (bytes_steps Self.next_gives) result
            (λ fes bytes. bytes ≡ to_bytes fes) }
    {
        FesToBytes::new(self, false)
    }

    /// The bytes of the elements, with a last part shorter than eight bits filled with zero bits.
    #[inline]
    final fn fes_to_bytes_zeropad(self) -> FesToBytes<Self>
    where
        Self: Sized,
        ensures source { fuse_source (bytes_source result) ≡ self }
        ensures fresh { fuse_done (bytes_source result) ≡ false }
        ensures padded { bytes_padded result ≡ true }
        ensures gives { (fes : List Fe32) → bytes_gives result fes ≡ to_bytes_zeropad fes }
        // A whole walk gives the bytes of what a whole walk of the elements gives.
        ensures walk { EachWalkGives Self.next_gives self (bytes_steps Self.next_gives) result
            (λ fes bytes. bytes ≡ to_bytes_zeropad fes) }
        ensures runs { EachRunGives Self.next_gives self (bytes_steps Self.next_gives) result
            (λ fes bytes. bytes ≡ to_bytes_zeropad fes) }
    {
        FesToBytes::new(self, true)
    }

    /// An encoder of the elements under a human-readable part.
    #[inline]
    final fn with_checksum<Ck: Checksum>(self, hrp: &Hrp) -> Encoder<'_, Self, Ck>
    where
        Self: Sized,
        ensures elements { encoder_elements result ≡ self }
        ensures hrp { encoder_hrp result ≡ hrp.now }
        ensures version { encoder_version result ≡ None }
    {
        Encoder::new(self, hrp)
    }
}

impl<I: Iterator<Item = Fe32>> Fe32IterExt for I {}
