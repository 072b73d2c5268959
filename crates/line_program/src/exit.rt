//! How a program ends.

ghost use Rattle.std.specs.Prelude.{◌≡◌, ◌≤◌, ℕ, List, false, true, take, if◌then◌else◌, is_ok, IfErr, OnErr, OnOk};
ghost use Rattle.std.specs.Io.KnownBytes.{Appends};
ghost use Rattle.std.specs.Process.{exit_status};
ghost use Rattle.line_program.specs.Ends.{end_line};

use crate::error::Reason;
use io_traits::{ByteSink, Watched, write_all};
use std::io;
use std::process::ExitCode;

/// Writes the line that tells why the run of a program ended early.
fn tell<K: ByteSink>(name: &str, words: &str, told: &mut K) -> io::Result<()>
    requires { K.has_failed told.old ≡ false }
    ensures ok { OnOk result
        (Appends (K.contents told.old) (K.contents told.new) (end_line name.now words.now)) }
    ensures beginning { OnErr result ((n : ℕ) × Appends (K.contents told.old) (K.contents told.new)
        (take n (end_line name.now words.now))) }
    ensures err_mark { OnErr result (K.has_failed told.new ≡ true) }
    ensures same { K.is_same told.old told.new }
{
    write_all(told, name.as_bytes())?;
    write_all(told, b": ")?;
    write_all(told, words.as_bytes())?;
    write_all(told, b"\n")
}

/// Tells why a run ended early, if it did, in a line with the name of its program, and returns the
/// status that the program ends with: 0, or 1 if the run ended early.
pub fn exit_code_on<E: Reason + Copy, K: ByteSink>(
    name: &str,
    ended: Result<(), E>,
    told: &mut K,
) -> ExitCode
    requires { K.has_failed told.old ≡ false }
    ensures status { exit_status result ≡ (if is_ok ended then 0 else 1) }
    ensures small { exit_status result ≤ 1 }
    ensures ok { OnOk ended (told.new ≡ told.old) }
    ensures err { IfErr ended (λ e. K.has_failed told.new ≡ false
        → Appends (K.contents told.old) (K.contents told.new) (end_line name.now (E.words e))) }
    ensures beginning { IfErr ended (λ e. (n : ℕ) × Appends (K.contents told.old)
        (K.contents told.new) (take n (end_line name.now (E.words e)))) }
    ensures same { K.is_same told.old told.new }
{
    match ended {
        Ok(()) => ExitCode::SUCCESS,
        Err(e) => {
            let _ = tell(name, e.words(), told);
            ExitCode::FAILURE
        }
    }
}

/// Tells why a run ended early, and returns the status, as [`exit_code_on`] does over a watched
/// writer.
pub fn exit_code<E: Reason + Copy, W: io::Write>(
    name: &str,
    ended: Result<(), E>,
    told: &mut W,
) -> ExitCode
    ensures status { exit_status result ≡ (if is_ok ended then 0 else 1) }
    ensures small { exit_status result ≤ 1 }
    ensures ok { OnOk ended (told.new ≡ told.old) }
    ensures beginning { IfErr ended (λ e. (n : ℕ) × Appends (W.contents told.old)
        (W.contents told.new) (take n (end_line name.now (E.words e)))) }
{
    exit_code_on(name, ended, &mut Watched::new(told))
}
