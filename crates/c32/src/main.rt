//! Answers each line of standard input about codex32 strings.
//!
//! Below it: `c32_replies`, `line_program`.
//! Standard: BIP-93.
#![tactic(auto)]

use c32_replies::reply::Commands;
use line_program::{exit_code, run};
use std::process::ExitCode;

fn main(rt: HostRuntime) -> ExitCode {
    let commands = Commands { alloc: rt.alloc() };
    let ended = run(rt.alloc(), &commands, &mut rt.stdin(), &mut rt.stdout());
    exit_code("c32", ended, &mut rt.stderr())
}
