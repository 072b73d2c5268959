//! How many checksums and texts there are of the same elements.

ghost use Rattle.std.specs.Prelude.{ℕ, Bool, List};
ghost use Rattle.bech32_gf.specs.declared.gf32.Fe32.{Fe32 as Element};
ghost use Rattle.bech32_checksum.specs.Encoded.{IsEncodedText};
ghost use Rattle.bech32_checksum.specs.TextPolynomial.{IsChecksumOf};
ghost use Rattle.bech32_encode.specs.Cased.{IsTextInCase};
ghost use Rattle.bech32_encode.specs.ExactlyOne.{ExactlyOne};

use bech32_checksum::Checksum;

/// A law of each checksum; the call does nothing. A human-readable part and elements have exactly
/// one checksum: of the lists of `CHECKSUM_LENGTH` elements, one makes the target the remainder
/// where it is put behind them. And they have exactly one text in each case: whatever encodes them
/// gives that one (BIP-173, Bech32).
pub fn encoded_text_is_unique<Ck: Checksum>()
    ensures checksum { (hrp : List ℕ) → (elements : List Element)
        → ExactlyOne (IsChecksumOf Ck.code hrp elements) }
    ensures text { (hrp : List ℕ) → (elements : List Element)
        → ExactlyOne (IsEncodedText Ck.code hrp elements) }
    ensures in_case { (upper : Bool) → (hrp : List ℕ) → (elements : List Element)
        → ExactlyOne (IsTextInCase upper Ck.code hrp elements) }
{}
