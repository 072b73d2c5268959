//! Answers each line of standard input.
//!
//! Below it: `b32_replies`, `line_program`.
//! Standard: BIP-173; BIP-350.
#![tactic(auto)]

use b32_replies::run::run_on;
use bech32::primitives::device::Watched;
use line_program::exit_code;
use std::process::ExitCode;

fn main(rt: HostRuntime) -> ExitCode {
    let mut input = rt.stdin();
    let mut output = rt.stdout();
    let mut source = Watched::new(&mut input);
    let mut sink = Watched::new(&mut output);
    let ended = run_on(rt.alloc(), &mut source, &mut sink);
    exit_code("b32", ended, &mut rt.stderr())
}
