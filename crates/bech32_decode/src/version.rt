//! The witness version that characters begin with.

ghost use Rattle.std.specs.Prelude.{◌≡◌, true, drop, MatchResult};
ghost use Rattle.bech32_decode.specs.Segwit.{IsVersioned, IsVersionRefusal};
ghost use Rattle.bech32_gf.specs.Alphabet.{is_data};
ghost use Rattle.bech32_gf.specs.Fe32.{elements_of};
ghost use Rattle.bech32_decode.specs.Version.{version_of};

use bech32_gf::gf32::Fe32;
use bech32_refusals::SegwitHrpstringError;
use bech32_refusals::segwit::is_valid_witness_version;

/// The element of the first character, where it is at most 16 (BIP-173, Segwit address format).
#[inline]
pub(crate) fn version_in(characters: &[u8]) -> Option<Fe32>
    requires { is_data characters.now ≡ true }
    ensures { result ≡ version_of (elements_of characters.now) }
{
    let first = Fe32::from_char_unchecked(*characters.first()?);
    if !is_valid_witness_version(first) {
        return None;
    }
    Some(first)
}

/// The element of the first character, which is to be a witness version.
///
/// # Errors
///
/// The first of: no character; an element above 16.
pub(crate) fn first_version(characters: &[u8]) -> Result<Fe32, SegwitHrpstringError>
    requires { is_data characters.now ≡ true }
    ensures { MatchResult result
        (λ v. IsVersioned (elements_of characters.now) v (elements_of (drop 1 characters.now)))
        (λ e. IsVersionRefusal (elements_of characters.now) e) }
{
    let Some(first) = characters.first() else {
        return Err(SegwitHrpstringError::NoData);
    };
    let version = Fe32::from_char_unchecked(*first);
    if !is_valid_witness_version(version) {
        return Err(SegwitHrpstringError::InvalidWitnessVersion(version));
    }
    Ok(version)
}
