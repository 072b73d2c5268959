//! Encodes and decodes confidential addresses.

ghost use Rattle.std.specs.Prelude.{◌≡◌, ℕ, length, IfOk, IfErr, MatchResult, OnErr};
ghost use Rattle.bech32_encode.specs.Buffers.{IsPut};
ghost use Rattle.liquid.specs.Parts.{confidential_key, confidential_part, confidential_program};
ghost use Rattle.bech32_more_calls.specs.confidential.Address.{IsDecodedAs, IsLiquidDecodeFault, IsLiquidEncodeFault, LacksRoomForParts, PutsConfidential, PutsParts};

use crate::confidential::refusal::Refusal;
use bech32::Fe32;
use bech32_calls::decode::validate_rooms;
use bech32_calls::input::{element_of, test_part};
use bech32_calls::refusal::Refusal as Other;
use bech32_decode::text_of;
use bech32_encode::put_at_front;
use liquid::{Address, address_length, decode, put_address, validate};

/// Puts the confidential address of a witness version, a blinding key and a program, in lower case,
/// at the front of a buffer, and returns its length, at most 201.
///
/// # Errors
///
/// The first of: a version above 31; a human-readable part that is not UTF-8, or is none; a version
/// above 16; one from 1 to 16; a program of less than 2 bytes, of more than 40, or of neither 20
/// nor 32; an address of more characters than the buffer has room for.
pub fn encoded(
    hrp: &[u8],
    version: u32,
    key: &[u8; 33],
    program: &[u8],
    text: &mut [u8],
) -> Result<usize, Refusal>
    ensures value { IfOk result
        (λ count. PutsConfidential hrp.now version key.now program.now text.old text.new count) }
    ensures refused { IfErr result
        (λ e. IsLiquidEncodeFault hrp.now version (length program.now) (length text.old) e) }
    ensures same { OnErr result (text.new ≡ text.old) }
{
    let element = element_of(version)?;
    test_part(hrp)?;
    validate(element, program.len())?;
    if address_length(hrp, program.len()) > text.len() {
        return Err(Refusal::Other(Other::NoRoom));
    }
    Ok(put_address(hrp, element, key, program, text))
}

// Puts the parts of an address into a key and at the fronts of two buffers, and returns the lengths
// of the human-readable part and of the program.
fn put_parts(
    address: &Address,
    hrp: &mut [u8],
    key: &mut [u8; 33],
    program: &mut [u8],
) -> Result<(usize, usize), Refusal>
    ensures value { IfOk result (λ n. IsPut (confidential_part address.now) hrp.old hrp.new n.0
        × (key.new ≡ confidential_key address.now)
        × IsPut (confidential_program address.now) program.old program.new n.1) }
    ensures refused { IfErr result
        (λ e. LacksRoomForParts address.now (length hrp.old) (length program.old) e) }
    ensures same { OnErr result ((hrp.new ≡ hrp.old) × (key.new ≡ key.old)
        × (program.new ≡ program.old)) }
{
    let part = address.hrp();
    let (part, found) = (part.as_bytes(), address.program());
    validate_rooms(part.len(), hrp.len(), found.len(), program.len())?;
    put_at_front(hrp, part);
    key.copy_from_slice(address.blinding_key());
    put_at_front(program, found);
    Ok((part.len(), found.len()))
}

/// Puts the human-readable part, in the case of the text, and the program of a confidential address
/// at the fronts of two buffers, and its blinding key into `key`, and returns the length of the
/// one, at most 83, the witness version, 0, and the length of the other, 20 or 32.
///
/// # Errors
///
/// The first of: a text that is not UTF-8; its first fault; a buffer that is too small.
pub fn decoded(
    text: &[u8],
    hrp: &mut [u8],
    key: &mut [u8; 33],
    program: &mut [u8],
) -> Result<(usize, Fe32, usize), Refusal>
    ensures value { IfOk result (λ n. PutsParts text.now hrp.old hrp.new key.new
        program.old program.new n.0 n.1.value n.2) }
    ensures refused { IfErr result
        (λ e. IsLiquidDecodeFault text.now (length hrp.old) (length program.old) e) }
    ensures same { OnErr result ((hrp.new ≡ hrp.old) × (key.new ≡ key.old)
        × (program.new ≡ program.old)) }
{
    let address = read(text)?;
    let (part, found) = put_parts(&address, hrp, key, program)?;
    Ok((part, address.witness_version(), found))
}

// The address that bytes are.
fn read(bytes: &[u8]) -> Result<Address, Refusal>
    ensures { MatchResult result
        (λ a. IsDecodedAs bytes.now a)
        (λ e. (m n : ℕ) → IsLiquidDecodeFault bytes.now m n e) }
{
    let Ok(text) = text_of(bytes) else {
        return Err(Refusal::Other(Other::NotUtf8));
    };
    let address = decode(text)?;
    Ok(address)
}
