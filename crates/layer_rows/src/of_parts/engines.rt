//! What engines hold.

use crate::of_fields::declared::row_shown;
use bech32_checksum::{Checksum, Engine};
use bech32_gf::gf32::Fe32;
use bech32_hrp::Hrp;
use std::alloc::{AllocError, Global};
use testing_tools::rows::{digits, word};

// Takes elements, one after another.
fn input_all<Ck: Checksum>(engine: &mut Engine<Ck>, fes: &[Fe32]) {
    for fe in fes {
        engine.input_fe(*fe);
    }
}

// Whether an engine equals a new one, and its clone.
fn comparisons<Ck: Checksum>(alloc: Global, engine: &Engine<Ck>) -> Result<String, AllocError> {
    let copy = engine.clone()?;
    format!(in alloc; "{} {}", *engine == Engine::new(), *engine == copy)
}

// What an engine holds, and how it compares.
fn held<Ck: Checksum>(alloc: Global, engine: &Engine<Ck>) -> Result<String, AllocError> {
    let row = row_shown(alloc, *engine.residue())?;
    let comparisons = comparisons(alloc, engine)?;
    format!(in alloc; "{row} {comparisons}")
}

// What an engine holds before the target, and behind it.
fn before_and_behind<Ck: Checksum>(
    alloc: Global,
    engine: &mut Engine<Ck>,
) -> Result<String, AllocError> {
    let before = held(alloc, engine)?;
    engine.input_target_residue();
    let behind = held(alloc, engine)?;
    format!(in alloc; "{before}|{behind}")
}

/// What a row of a checksum, a human-readable part, where there is one, and elements gives.
pub fn reply<Ck: Checksum>(alloc: Global, words: &[&str]) -> Result<String, AllocError> {
    let fes = digits(alloc, word(words, 3))?;
    let mut engine = Engine::<Ck>::default();
    if let Ok(hrp) = Hrp::parse(word(words, 2)) {
        engine.input_hrp(hrp);
    }
    input_all(&mut engine, &fes);
    before_and_behind(alloc, &mut engine)
}
