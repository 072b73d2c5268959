//! Texts of bytes, piece by piece.

ghost use Rattle.std.specs.Prelude.{◌≡◌, ◌≤◌, ◌++◌, ℕ, List, [], ◌∷◌, Option, map, length, take, option_to_list};
ghost use Rattle.std.specs.Prelude.{Bool, true, false};
ghost use Rattle.std.specs.Str.{IsAscii};
ghost use Rattle.bech32_gf.specs.Fe32 as fe32;
ghost use Rattle.bech32_poly.specs.Polynomial.{appended};
ghost use Rattle.bech32_bits.specs.Bits.{to_fes};
ghost use Rattle.bech32_checksum.specs.Code.{IsResidueOf};
ghost use Rattle.bech32_checksum.specs.Encoded.{char_of_element};
ghost use Rattle.bech32_checksum.specs.TextPolynomial.{hrp_elements};
ghost use Rattle.bech32_encode.specs.Buffers.{PutsBehind};
ghost use Rattle.bech32_encode.specs.Cased.{IsTextInCase};
ghost use Rattle.bech32_encode.specs.TextLeft.{front_left, checksum_left};
ghost use Rattle.bech32_hrp.specs.HrpBytes.{hrp_bytes};

use super::buffer::{put_byte, put_front, put_row, raise_front};
use super::groups::put_bytes;
use bech32_checksum::{Checksum, Engine};
use bech32_gf::gf32::Fe32;
use bech32_hrp::Hrp;
use io_traits::Pieces;

// How many bytes go into a piece at most. Eight elements stand for each five of them, so that none
// is cut.
const BYTES: usize = 80;

/// The text of a human-readable part, a witness version where there is one, and bytes, piece by
/// piece, in upper case or in lower case.
#[derive(Drop)]
pub struct TextInPieces<'a, Ck: Checksum> {
    hrp: Hrp,
    version: Option<Fe32>,
    // Those that are still to come.
    bytes: &'a [u8],
    // It was given the human-readable part, the version and the bytes before those.
    engine: Engine<Ck>,
    begun: bool,
    ended: bool,
    upper: bool,
}

// An engine that was given a human-readable part, and a version where there is one.
fn engine_after<Ck: Checksum>(hrp: &Hrp, version: Option<Fe32>) -> Engine<Ck>
    ensures { IsResidueOf Ck.MidstateRepr.number Ck.code result
        (appended (appended (fe32.one ∷ []) (hrp_elements (hrp_bytes hrp.now)))
        (option_to_list version)) }
{
    let mut engine = Engine::new();
    engine.input_hrp(*hrp);
    if let Some(version) = version {
        engine.input_fe(version);
    }
    engine
}

// Puts the character of a version, where there is one.
fn put_optional(version: Option<Fe32>, count: usize, buffer: &mut [u8]) -> usize
    ensures { PutsBehind (map char_of_element (option_to_list version))
        buffer.old count buffer.new result }
{
    match version {
        Some(version) => put_byte(version.to_char() as u8, count, buffer),
        None => count,
    }
}

// Puts the human-readable part, `1` and the version, where they were not put before.
fn put_start(begun: bool, hrp: &Hrp, version: Option<Fe32>, buffer: &mut [u8]) -> usize
    ensures { PutsBehind (front_left begun (hrp_bytes hrp.now) version)
        buffer.old 0 buffer.new result }
{
    if begun {
        return 0;
    }
    let count = put_front(hrp, buffer);
    put_optional(version, count, buffer)
}

// Puts the checksum of what the engine was given, where that was the last of it.
fn put_end<Ck: Checksum>(
    last: bool,
    engine: &mut Engine<Ck>,
    count: usize,
    buffer: &mut [u8],
) -> usize
    ensures text { PutsBehind
        (map char_of_element (checksum_left Ck.MidstateRepr.number Ck.code last engine.old))
        buffer.old count buffer.new result }
    ensures kept { last ≡ false → engine.new ≡ engine.old }
{
    if last {
        engine.input_target_residue();
        put_row(engine.residue(), Ck::CHECKSUM_LENGTH, count, buffer)
    } else {
        count
    }
}

impl<'a, Ck: Checksum> TextInPieces<'a, Ck> {
    /// The text from its beginning on.
    pub fn new(hrp: &Hrp, version: Option<Fe32>, bytes: &'a [u8], upper: bool) -> Self
        ensures { IsTextInCase upper Ck.code (hrp_bytes hrp.now)
            (option_to_list version ++ to_fes bytes.now)
            (⟦<TextInPieces<'a, Ck> as Pieces>⟧.to_come result) }
    {
        TextInPieces {
            hrp: *hrp,
            version,
            bytes,
            engine: engine_after(hrp, version),
            begun: false,
            ended: false,
            upper,
        }
    }
}

impl<'a, Ck: Checksum> Pieces for TextInPieces<'a, Ck> {
    ghost use Rattle.bech32_encode.specs.TextLeft.{text_left};

    ghost to_come = { λ s. text_left Ck.MidstateRepr.number Ck.code s.ended s.upper
        (front_left s.begun (hrp_bytes s.hrp) s.version) s.engine s.bytes.now };

    fn put_next(&mut self, buffer: &mut [u8]) -> usize {
        if self.ended {
            return 0;
        }
        let start = put_start(self.begun, &self.hrp, self.version, buffer);
        let size = self.bytes.len().min(BYTES);
        let middle = put_bytes(&self.bytes[..size], &mut self.engine, start, buffer);
        self.bytes = &self.bytes[size..];
        let last = self.bytes.is_empty();
        let count = put_end(last, &mut self.engine, middle, buffer);
        raise_front(self.upper, count, buffer);
        self.begun = true;
        self.ended = last;
        count
    }
}
