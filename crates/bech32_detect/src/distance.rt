//! In how many places accepted texts differ.

ghost use Rattle.std.specs.Prelude.{◌<◌, ℕ};
ghost use Rattle.bech32_detect.specs.Texts.{AreTextsFar};

use bech32_checksum::Checksum;

/// A law of each checksum with lawful roots; the call does nothing. Two texts that the checksum
/// accepts, of the same human-readable part and length, have the same elements or differ in more
/// than `ROOT_EXPONENTS_END - ROOT_EXPONENTS_START + 1` places: in more than 3 for
/// [`Bech32`](bech32_checksum::Bech32) and [`Bech32m`](bech32_checksum::Bech32m) (BIP-173, Checksum
/// design).
pub fn accepted_texts_are_far<Ck: Checksum>()
    ensures { 0 < Ck.CHECKSUM_LENGTH → Ck.lawful
        → (n : ℕ) → AreTextsFar Ck.code n Ck.bound }
{}
