//! The engine over a run of elements.

ghost use Rattle.std.specs.Prelude.{◌≡◌, ◌≢◌, ◌≤◌, ℕ, All};
ghost use Rattle.bech32_calls.specs.Checksums.{ForChecksum, IsFaultBy};
ghost use Rattle.bech32_calls.specs.Engine.{IsRunResidue, IsRunFault};
ghost use Rattle.bech32_calls.specs.Faults.{IsNumberOf};

use bech32_calls::engine::residue_by;

/// See `bech32_residue` in `include/bech32.h`.
#[unsafe(no_mangle)]
pub extern "C" fn bech32_residue(checksum: u32, elements: &[u8], residue: &mut u32) -> u32
    ensures value { result ≡ 0
        → ForChecksum checksum (IsRunResidue (λ (n : ℕ). n) elements.now residue.new) }
    ensures accepts { ForChecksum checksum (λ _. All (λ x. x ≤ 31) elements.now) → result ≡ 0 }
    ensures refused { result ≢ 0
        → IsNumberOf (IsFaultBy checksum (IsRunFault elements.now)) result }
    ensures same { result ≢ 0 → residue.new ≡ residue.old }
{
    match residue_by(checksum, elements) {
        Ok(r) => {
            *residue = r;
            0
        }
        Err(refusal) => refusal.number(),
    }
}
