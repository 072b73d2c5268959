//! Errors that stand close together.

ghost use Rattle.std.specs.Prelude.{◌≢◌};
ghost use Rattle.bech32_gf.specs.Fe32 as fe32;
ghost use Rattle.bech32_poly.specs.Polynomial.{coefficient};
ghost use Rattle.bech32_checksum.specs.Code.{Code, bech32, bech32m};
ghost use Rattle.bech32_detect.specs.Bursts.{AreBurstsDetected};

/// A law of each checksum whose generator has a constant term; the call does nothing. No two texts
/// that it accepts, of one human-readable part and length, differ only within as many places in a
/// row as the checksum has characters: six for Bech32 and Bech32m.
pub fn bursts_are_detected()
    ensures code { (code : Code)
        → coefficient fe32.ops code.generator 0 ≢ fe32.zero → AreBurstsDetected code }
    ensures bech32 { AreBurstsDetected bech32 }
    ensures bech32m { AreBurstsDetected bech32m }
{}
