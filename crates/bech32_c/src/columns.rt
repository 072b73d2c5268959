//! Whole columns of texts and of segwit addresses: each row as by the call for one.

ghost use Rattle.std.specs.Prelude.{◌≡◌, ◌≢◌, ◌<◌, ◌≤◌, ◌⊎◌, ◌+◌, ◌/◌, length};
ghost use Rattle.bech32_more_calls.specs.columns.Checked.{CanCheck, PutsNumbers};
ghost use Rattle.bech32_calls.specs.Faults.{IsNumberOf};
ghost use Rattle.bech32_more_calls.specs.columns.Decoded.{CanDecodeMany, IsDecodeManyFault, PutsAddresses};
ghost use Rattle.bech32_more_calls.specs.columns.Encoded.{PutsTexts};
ghost use Rattle.bech32_more_calls.specs.columns.Rows.{HasRows};
ghost use Rattle.bech32_more_calls.specs.columns.Validity.{PutsValidity, accepted_of};

use bech32_calls::refusal::Refusal;
use bech32_more_calls::columns::check::check_many;
use bech32_more_calls::columns::column::Column;
use bech32_more_calls::columns::decode::{Addresses, decode_many};
use bech32_more_calls::columns::encode::{ProgramRows, encode_many};
use bech32_more_calls::columns::validity::put_validity;

// Tells how many rows are put, and returns the number of the call: 92 where not all are.
fn told(rows: usize, count: usize, done: &mut usize) -> u32
    requires { rows ≤ count }
    ensures done { done.new ≡ rows }
    ensures number { ((result ≡ 0) × (rows ≡ count)) ⊎ ((result ≡ 92) × (rows < count)) }
{
    *done = rows;
    if rows == count {
        return 0;
    }
    Refusal::NoRoom.number()
}

/// See `bech32_check_many` in `include/bech32.h`.
#[unsafe(no_mangle)]
pub extern "C" fn bech32_check_many(
    checksum: u32,
    texts: &Column<'_>,
    first: usize,
    numbers: &mut [u8],
) -> u32
    ensures value { result ≡ 0 → PutsNumbers checksum texts.now first numbers.new }
    ensures accepts { CanCheck checksum texts.now first (length numbers.old) → result ≡ 0 }
    ensures refused { result ≢ 0 → (result ≡ 4)
        × (¬ (CanCheck checksum texts.now first (length numbers.old)))
        × (numbers.new ≡ numbers.old) }
{
    if check_many(checksum, texts, first, numbers) {
        return 0;
    }
    Refusal::BadNumber.number()
}

/// See `bech32_segwit_decode_many` in `include/bech32.h`.
#[unsafe(no_mangle)]
pub extern "C" fn bech32_segwit_decode_many(
    texts: &Column<'_>,
    first: usize,
    hrp: &[u8],
    numbers: &mut [u8],
    versions: &mut [u8],
    hrp_lengths: &mut [u8],
    program_offsets: &mut [u32],
    programs: &mut [u8],
    done: &mut usize,
) -> u32
    ensures value { result ≡ 0 → (done.new ≡ length numbers.old)
        × PutsAddresses texts.now first hrp.now numbers.old numbers.new versions.old versions.new
        hrp_lengths.old hrp_lengths.new program_offsets.old program_offsets.new
        programs.old programs.new done.new }
    ensures first { result ≡ 92 → (done.new < length numbers.old)
        × PutsAddresses texts.now first hrp.now numbers.old numbers.new versions.old versions.new
        hrp_lengths.old hrp_lengths.new program_offsets.old program_offsets.new
        programs.old programs.new done.new }
    ensures accepts { CanDecodeMany texts.now first (length numbers.old) hrp.now
        → (result ≡ 0) ⊎ (result ≡ 92) }
    ensures refused { result ≢ 0 → result ≢ 92 → IsNumberOf
        (IsDecodeManyFault texts.now first (length numbers.old) hrp.now) result }
    ensures same { result ≢ 0 → result ≢ 92 → (numbers.new ≡ numbers.old)
        × (versions.new ≡ versions.old) × (hrp_lengths.new ≡ hrp_lengths.old)
        × (program_offsets.new ≡ program_offsets.old) × (programs.new ≡ programs.old)
        × (done.new ≡ done.old) }
{
    let rows = Addresses {
        column: *texts,
        first,
        hrp,
    };
    let put = decode_many(
        &rows,
        numbers,
        versions,
        hrp_lengths,
        program_offsets,
        programs,
    );
    match put {
        Ok(rows) => told(rows, numbers.len(), done),
        Err(refusal) => refusal.number(),
    }
}

/// See `bech32_segwit_encode_many` in `include/bech32.h`.
#[unsafe(no_mangle)]
pub extern "C" fn bech32_segwit_encode_many(
    hrp: &[u8],
    versions: &[u8],
    programs: &Column<'_>,
    first: usize,
    numbers: &mut [u8],
    text_offsets: &mut [u32],
    texts: &mut [u8],
    done: &mut usize,
) -> u32
    ensures value { result ≡ 0 → (done.new ≡ length numbers.old)
        × PutsTexts programs.now first hrp.now versions.now numbers.old numbers.new
        text_offsets.old text_offsets.new texts.old texts.new done.new }
    ensures first { result ≡ 92 → (done.new < length numbers.old)
        × PutsTexts programs.now first hrp.now versions.now numbers.old numbers.new
        text_offsets.old text_offsets.new texts.old texts.new done.new }
    ensures accepts { HasRows programs.now first (length numbers.old)
        → length numbers.old ≤ length versions.now → (result ≡ 0) ⊎ (result ≡ 92) }
    ensures refused { result ≢ 0 → result ≢ 92 → (result ≡ 4)
        × (HasRows programs.now first (length numbers.old)
        → length versions.now < length numbers.old) }
    ensures same { result ≢ 0 → result ≢ 92 → (numbers.new ≡ numbers.old)
        × (text_offsets.new ≡ text_offsets.old) × (texts.new ≡ texts.old)
        × (done.new ≡ done.old) }
{
    let rows = ProgramRows {
        column: *programs,
        first,
        hrp,
        versions,
    };
    match encode_many(&rows, numbers, text_offsets, texts) {
        Some(rows) => told(rows, numbers.len(), done),
        None => Refusal::BadNumber.number(),
    }
}

/// See `bech32_validity_of` in `include/bech32.h`.
#[unsafe(no_mangle)]
pub extern "C" fn bech32_validity_of(
    numbers: &[u8],
    validity: &mut [u8],
    accepted: &mut usize,
) -> u32
    ensures value { result ≡ 0 → PutsValidity numbers.now validity.old validity.new
        × (accepted.new ≡ accepted_of numbers.now) }
    ensures accepts { (length numbers.now + 7) / 8 ≤ length validity.old → result ≡ 0 }
    ensures refused { result ≢ 0 → (result ≡ 92)
        × (length validity.old < (length numbers.now + 7) / 8)
        × (validity.new ≡ validity.old) × (accepted.new ≡ accepted.old) }
{
    match put_validity(numbers, validity) {
        Some(count) => {
            *accepted = count;
            0
        }
        None => Refusal::NoRoom.number(),
    }
}
