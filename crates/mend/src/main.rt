//! Answers each line of standard input about mistyped texts.
//!
//! Below it: `bech32`, `bech32_calls`, `bech32_descriptor`, `bech32_suggest`, `bech32_numbers`,
//! `liquid`, `bech32_more_calls`, `line_program`, `b32_replies`.
//! Standard: BIP-173; BIP-350; BIP-380; Elements, `src/blech32.cpp` and `src/key_io.cpp`.
#![tactic(auto)]

mod accepting;
mod command;
mod descriptors;
mod edits;
mod fault;
mod found;
mod laws;
mod liquid_near;
mod near;
mod numbers;
mod other_command;
mod reply;
mod suggest;

use crate::reply::Commands;
use line_program::{exit_code, run};
use std::process::ExitCode;

fn main(rt: HostRuntime) -> ExitCode {
    let commands = Commands { alloc: rt.alloc() };
    let ended = run(rt.alloc(), &commands, &mut rt.stdin(), &mut rt.stdout());
    exit_code("mend", ended, &mut rt.stderr())
}
