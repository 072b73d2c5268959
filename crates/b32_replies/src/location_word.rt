//! Locations as a word: numbers up to 1022, in decimal, with commas between them.

ghost use Rattle.std.specs.Prelude.{◌≡◌, ◌≢◌, ◌≤◌, ℕ, List, [], ◌∷◌, length, take, MatchOption, MatchResult};
ghost use Rattle.std.specs.Fmt.{decimal};
ghost use Rattle.bech32_bch.specs.Erasures.{with_erasures};
ghost use Rattle.b32_replies.specs.Locations.{AreLocations, IsNoListOfLocations};

use crate::refusal::Refusal;
use crate::version_word::digit_value;
use bech32_bch::{ShortVec, contains};
use bech32_correction::NoMemory;

/// The highest location in a text.
const MOST: usize = 1022;

/// The location that a word is in decimal, without leading zeros.
fn location_of_word(word: &[u8]) -> Option<usize>
    ensures { MatchOption result
        ((n : ℕ) → n ≤ 1022 → word.now ≢ decimal n)
        (λ n. (n ≤ 1022) × (word.now ≡ decimal n)) }
{
    let (first, others) = word.split_first()?;
    let mut number = usize::from(digit_value(*first)?);
    for byte in others {
        if number == 0 || number > MOST / 10 {
            return None;
        }
        number = 10 * number + usize::from(digit_value(*byte)?);
    }
    if number > MOST {
        return None;
    }
    Some(number)
}

/// Adds a location behind different ones, unless it is one of them, or they are as many as are
/// kept.
fn add_location(few: &mut ShortVec<usize, NoMemory>, location: usize, kept: usize)
    requires size { length few.old ≤ kept }
    requires in_place { kept ≤ 7 }
    ensures { few.new ≡ take kept (with_erasures few.old (location ∷ [])) }
{
    if few.len() == kept {
        return;
    }
    if contains(few.as_slice(), location) {
        return;
    }
    few.push(location).unwrap();
}

/// The different locations that a word lists, in the order in which they come first, at most as
/// many as are kept. One more than a search takes tells what all of them tell.
fn first_locations(word: &str, kept: usize) -> Result<ShortVec<usize, NoMemory>, Refusal>
    requires { kept ≤ 7 }
    ensures { MatchResult result
        (λ few. (given : List ℕ) × AreLocations word.now given
        × (few ≡ take kept (with_erasures [] given)))
        (λ e. (e ≡ Refusal.BadNumber) × IsNoListOfLocations word.now) }
{
    let mut few = ShortVec::new(NoMemory);
    let mut rest = word;
    'pieces: while let Some((piece, others)) = rest.split_once(',') {
        let Some(location) = location_of_word(piece.as_bytes()) else {
            return Err(Refusal::BadNumber);
        };
        add_location(&mut few, location, kept);
        rest = others;
    }
    let Some(location) = location_of_word(rest.as_bytes()) else {
        return Err(Refusal::BadNumber);
    };
    add_location(&mut few, location, kept);
    Ok(few)
}

/// The first four different locations that a word lists, which are more than any correction by
/// Bech32 or Bech32m takes.
pub fn locations_of_word(word: &str) -> Result<ShortVec<usize, NoMemory>, Refusal>
    ensures { MatchResult result
        (λ few. (given : List ℕ) × AreLocations word.now given
        × (few ≡ take 4 (with_erasures [] given)))
        (λ e. (e ≡ Refusal.BadNumber) × IsNoListOfLocations word.now) }
{
    first_locations(word, 4)
}

/// The first seven different locations that a word lists, which are more than any correction of a
/// confidential address takes.
pub fn seven_locations_of_word(word: &str) -> Result<ShortVec<usize, NoMemory>, Refusal>
    ensures { MatchResult result
        (λ few. (given : List ℕ) × AreLocations word.now given
        × (few ≡ take 7 (with_erasures [] given)))
        (λ e. (e ≡ Refusal.BadNumber) × IsNoListOfLocations word.now) }
{
    first_locations(word, 7)
}
