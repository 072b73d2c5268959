//! Prints the Rust code that declares a checksum. The words are its name, its generator and its
//! target, these two as characters from the highest coefficient down, the generator without its
//! leading one, and the field in which the generator's roots are looked for: `Fe32`, `Fe1024`
//! (which it is where there is no such word) or `Fe32768`. Four further words ask for one more
//! block.
//!
//! Below it: `bech32_block`.
//! Standard: none.
#![tactic(auto)]

mod asked;
mod error;
mod words;

use crate::asked::write_block;
use anyhow::{Result, bail};
use std::env;

fn main(rt: HostRuntime) -> Result<()> {
    let words: Vec<String> = env::args(&rt)?.skip(1).collect(rt.alloc())?;
    let mut rest = words.as_slice();
    for _ in 0..words.len().div_ceil(4).max(1) {
        let [name, generator, target, more @ ..] = rest else {
            bail!("asked for a name, a generator and a target");
        };
        let asked = (name.as_str(), generator.as_str(), target.as_str());
        let field = more.first().map(|word| word.as_str());
        write_block(rt.alloc(), asked, field, &mut rt.stdout())?;
        rest = more.get(1..).unwrap_or(&[]);
    }
    Ok(())
}
