//! A confidential address in its parts.

ghost use Rattle.std.specs.Prelude.{◌≡◌, ◌≤◌, true, length};
ghost use Rattle.bech32_gf.specs.Alphabet.{is_data};
ghost use Rattle.bech32_gf.specs.Fe32.{elements_of};
ghost use Rattle.bech32_bits.specs.Bits.{to_bytes};
ghost use Rattle.bech32_hrp.specs.Hrp.{IsHrp};

use bech32_decode::put_data_bytes;
use bech32_gf::gf32::Fe32;
use bech32_hrp::Hrp;

/// The number of bytes of a blinding key.
pub const KEY_LENGTH: usize = 33;

// The most bytes of a blinding key and a program.
const MOST: usize = 65;

/// A confidential address in its parts: the human-readable part, the witness version, the blinding
/// key and the witness program.
#[derive(Clone, Copy)]
pub struct Address {
    hrp: Hrp,
    witness_version: Fe32,
    // The blinding key and, behind it, the program.
    bytes: [u8; MOST],
    // How many bytes they are.
    size: usize,
    pub ghost least: { 33 ≤ size },
    pub ghost most: { size ≤ 65 },
}

impl Address {
    ghost use Rattle.liquid.specs.Parts.{confidential_hrp, confidential_part, confidential_version, confidential_payload, confidential_key, confidential_program};

    // The address of these characters of a blinding key and a program.
    pub(crate) fn of_payload(part: &[u8], version: Fe32, payload: &[u8]) -> Address
        requires part { IsHrp part.now }
        requires of_alphabet { is_data payload.now ≡ true }
        requires least { 33 ≤ length (to_bytes (elements_of payload.now)) }
        requires most { length (to_bytes (elements_of payload.now)) ≤ 65 }
        ensures part { confidential_part result ≡ part.now }
        ensures version { confidential_version result ≡ version }
        ensures payload { confidential_payload result ≡ to_bytes (elements_of payload.now) }
    {
        let mut bytes = [0u8; MOST];
        let size = put_data_bytes(payload, &mut bytes);
        Address {
            hrp: Hrp::of_bytes(part),
            witness_version: version,
            bytes,
            size,
        }
    }

    /// The human-readable part, in the case of the text.
    pub fn hrp(&self) -> Hrp
        ensures { result ≡ confidential_hrp self.now }
    {
        self.hrp
    }

    /// The witness version, which is 0.
    pub fn witness_version(&self) -> Fe32
        ensures { result ≡ confidential_version self.now }
    {
        self.witness_version
    }

    // The bytes of the blinding key and of the program.
    fn payload(&self) -> &[u8]
        ensures value { result.now ≡ confidential_payload self.now }
        ensures least { 33 ≤ length result.now }
    {
        &self.bytes[..self.size]
    }

    /// The blinding key, of [`KEY_LENGTH`] bytes. That it is a point of the curve is not tested.
    pub fn blinding_key(&self) -> &[u8]
        ensures value { result.now ≡ confidential_key self.now }
        ensures size { length result.now ≡ 33 }
    {
        let (key, _) = self.payload().split_at(KEY_LENGTH);
        key
    }

    /// The witness program, of 20 or 32 bytes.
    pub fn program(&self) -> &[u8]
        ensures { result.now ≡ confidential_program self.now }
    {
        let (_, program) = self.payload().split_at(KEY_LENGTH);
        program
    }
}
