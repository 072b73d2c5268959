//! A law: Bech32 and Bech32m detect four errors in 89 characters.

ghost use Rattle.std.specs.Prelude.{◌≤◌, ℕ};
ghost use Rattle.bech32_gf.specs.Fe32 as fe32;
ghost use Rattle.bech32_checksum.specs.Code.{bech32, bech32m};
ghost use Rattle.bech32_bch.specs.Detection.{DetectsFour};
ghost use Rattle.bech32_detect.specs.Texts.{AreTextsFar};

/// A law of [`Bech32`](bech32_checksum::Bech32) and [`Bech32m`](bech32_checksum::Bech32m); the call
/// does nothing. No pattern of one to four errors, at different locations below 89, has the
/// remainder zero. So two texts that one of them accepts, of the same human-readable part and
/// length and with data parts of at most 89 characters, have the same elements or differ in at
/// least five.
pub fn four_errors_are_detected()
    ensures bech32 { (n : ℕ) → n ≤ 89 → DetectsFour fe32.ops bech32.generator n }
    ensures bech32m { (n : ℕ) → n ≤ 89 → DetectsFour fe32.ops bech32m.generator n }
    ensures bech32_texts { AreTextsFar bech32 89 4 }
    ensures bech32m_texts { AreTextsFar bech32m 89 4 }
{}
