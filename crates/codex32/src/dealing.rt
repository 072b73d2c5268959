//! The shares of a secret, one behind another: of random bytes, and what these give.

ghost use Rattle.std.specs.Prelude.{◌≡◌, ◌≤◌, ◌<◌, ◌+◌, ◌-◌, ◌*◌, ◌||◌, ℕ, List, ◌∷◌, suc, true, length, take};
ghost use Rattle.bech32_gf.specs.declared.gf32.Fe32.{Fe32 as Element};
ghost use Rattle.codex32.specs.Derive.{DoContradict, IsDerivedString, IsWholeSet, size_of};
ghost use Rattle.codex32.specs.Encode.{is_byte_count, is_long_byte_count, is_long_payload_count, is_payload_count};
ghost use Rattle.codex32.specs.HeaderParts.{threshold_number};
ghost use Rattle.codex32.specs.Share.{AreSharesOf, IsEither, IsShareOf};
ghost use Rattle.codex32.specs.Split.{AreBase, IsHeaderOfParts, IsOwnString, IsPayloadString, drawn, drawn_for, first_texts, split_index, string_size, text_at, text_size};
ghost use Rattle.codex32.specs.declared.share.Share.{Share as AShare};
ghost use Rattle.codex32.specs.Code.{max_long_length};

use crate::derivation::derive_into;
use crate::encoding::{encode_into, encode_payload_into};
use crate::header::Header;
use crate::identifier::Identifier;
use crate::lengths::MAX_LONG_LENGTH;
use crate::share::Share;
use crate::threshold::Threshold;
use bech32::Fe32;

// The most elements of a payload: those of 64 bytes.
const MOST_OF_PAYLOAD: usize = 103;

// The most strings that give the others.
const MOST_OF_BASE: usize = 9;

// The characters of the indices of shares, in their order.
const INDICES: [u8; 31] = *b"acdefghjklmnpqrtuvwxyz023456789";

// The index of share number j.
fn index_of(j: usize) -> Fe32
    requires { j < 31 }
    ensures { result ≡ split_index j }
{
    Fe32::from_char_unchecked(INDICES[j])
}

// How many shares have payloads that are drawn.
pub(crate) fn drawn_count(threshold: Threshold) -> usize
    ensures value { result ≡ threshold_number threshold - 1 }
    ensures few { result ≤ 8 }
{
    usize::from(threshold.number()).saturating_sub(1)
}

// Puts a text where share number j stands, if all are as long as it.
fn put_at(texts: &mut [u8], j: usize, text: &[u8])
    requires { j * length text.now + length text.now ≤ length texts.old }
    ensures here { text_at (length text.now) texts.new j ≡ text.now }
    ensures before { (i : ℕ) → i < j
        → text_at (length text.now) texts.new i ≡ text_at (length text.now) texts.old i }
{
    let start = j * text.len();
    texts[start..start + text.len()].copy_from_slice(text);
}

// The header of a share.
fn header_at(threshold: Threshold, identifier: Identifier, index: Fe32) -> Header
    requires { threshold_number threshold ≡ 0 → ⊥ }
    ensures { IsHeaderOfParts threshold identifier index result }
{
    let Ok(header) = Header::new(threshold, identifier, index) else {
        unreachable!()
    };
    header
}

// Puts the secret's own string at the front of a buffer, and returns its length.
pub(crate) fn put_own(
    room: &mut [u8],
    threshold: Threshold,
    identifier: Identifier,
    secret: &[u8],
) -> usize
    requires shared { threshold_number threshold ≡ 0 → ⊥ }
    requires counted { is_byte_count (length secret.now) || is_long_byte_count (length secret.now)
        ≡ true }
    requires room { max_long_length ≤ length room.old }
    ensures own { IsOwnString threshold identifier secret.now (take result room.new) }
    ensures size { result ≡ text_size (length secret.now) }
{
    let header = header_at(threshold, identifier, Fe32::S);
    let Ok(count) = encode_into(room, &header, secret) else {
        unreachable!()
    };
    count
}

// Puts the elements of the lowest five bits of random bytes.
fn put_low_bits(elements: &mut [Fe32], random: &[u8])
    requires { length elements.old ≡ length random.now }
    ensures { elements.new ≡ drawn random.now }
{
    for i in 0..random.len() {
        elements[i] = Fe32::from_low_bits(random[i]);
    }
}

// Puts share number j, whose payload is drawn.
fn put_drawn(
    texts: &mut [u8],
    j: usize,
    threshold: Threshold,
    identifier: Identifier,
    random: &[u8],
)
    requires shared { threshold_number threshold ≡ 0 → ⊥ }
    requires few { j < 31 }
    requires counted { is_payload_count (length random.now) || is_long_payload_count
        (length random.now) ≡ true }
    requires room { j * string_size (length random.now) + string_size (length random.now)
        ≤ length texts.old }
    ensures here { IsPayloadString threshold identifier (split_index j) (drawn random.now)
        (text_at (string_size (length random.now)) texts.new j) }
    ensures before { (i : ℕ) → i < j
        → text_at (string_size (length random.now)) texts.new i
        ≡ text_at (string_size (length random.now)) texts.old i }
{
    let mut payload = [Fe32::Q; MOST_OF_PAYLOAD];
    let elements = &mut payload[..random.len()];
    put_low_bits(elements, random);
    let header = header_at(threshold, identifier, index_of(j));
    let mut room = [0u8; MAX_LONG_LENGTH];
    let Ok(count) = encode_payload_into(&mut room, &header, elements) else {
        unreachable!()
    };
    put_at(texts, j, &room[..count]);
}

// Puts the shares whose payloads, of `size` characters each, are drawn.
pub(crate) fn put_all_drawn(
    texts: &mut [u8],
    threshold: Threshold,
    identifier: Identifier,
    random: &[u8],
    size: usize,
)
    requires shared { threshold_number threshold ≡ 0 → ⊥ }
    requires counted { is_payload_count size || is_long_payload_count size ≡ true }
    requires random_is { length random.now ≡ (threshold_number threshold - 1) * size }
    requires room { (threshold_number threshold - 1) * string_size size ≤ length texts.old }
    ensures { (j : ℕ) → j < threshold_number threshold - 1
        → IsPayloadString threshold identifier (split_index j) (drawn_for size random.now j)
        (text_at (string_size size) texts.new j) }
{
    for j in 0..drawn_count(threshold) {
        let start = j * size;
        put_drawn(
            texts,
            j,
            threshold,
            identifier,
            &random[start..start + size],
        );
    }
}

// The share of a text that is a string.
fn share_of(text: &[u8]) -> Share<'_>
    requires { IsEither text.now }
    ensures { IsShareOf text.now result }
{
    // All of it is ASCII: what the call requires is proved.
    let Ok(share) = Share::parse(unsafe { str::from_utf8_unchecked(text) }) else {
        unreachable!()
    };
    share
}

// Puts the shares of the first `count` texts, which have `n` characters each.
fn put_shares<'t>(room: &mut [Share<'t>], texts: &'t [u8], n: usize, count: usize)
    requires texts { (j : ℕ) → j < count → IsEither (text_at n texts.now j) }
    requires size { count * n ≤ length texts.now }
    requires room { count ≤ length room.old }
    ensures shares { AreSharesOf (first_texts n texts.now count) (take count room.new) }
    ensures size { length room.new ≡ length room.old }
{
    for j in 0..count {
        let start = j * n;
        room[j] = share_of(&texts[start..start + n]);
    }
}

// Puts share number j of a buffer, at the index that the others give it for.
fn put_derived_at(texts: &mut [u8], j: usize, base: &[Share<'_>], index: Fe32)
    requires whole { IsWholeSet base.now index }
    requires agree { DoContradict base.now → ⊥ }
    requires room { j * (3 + size_of base.now) + (3 + size_of base.now) ≤ length texts.old }
    ensures here { IsDerivedString base.now index (text_at (3 + size_of base.now) texts.new j) }
    ensures before { (i : ℕ) → i < j → text_at (3 + size_of base.now) texts.new i
        ≡ text_at (3 + size_of base.now) texts.old i }
{
    let mut room = [0u8; MAX_LONG_LENGTH];
    let Ok(count) = derive_into(&mut room, base, index) else {
        unreachable!()
    };
    put_at(texts, j, &room[..count]);
}

// Puts `count` shares, which the others give, from number `from` on.
fn put_all_derived(texts: &mut [u8], base: &[Share<'_>], from: usize, count: usize)
    requires whole { (x : Element) → IsWholeSet base.now x }
    requires agree { DoContradict base.now → ⊥ }
    requires few { from + count ≤ 31 }
    requires room { count * (3 + size_of base.now) ≤ length texts.old }
    ensures { (j : ℕ) → j < count → IsDerivedString base.now (split_index (from + j))
        (text_at (3 + size_of base.now) texts.new j) }
{
    for j in 0..count {
        put_derived_at(texts, j, base, index_of(from + j));
    }
}

// Puts the shares from number `drawn` on, `count` of them, which the secret's own string and the
// first texts give.
fn put_given<'t>(rest: &mut [u8], own: &'t [u8], first: &'t [u8], drawn: usize, count: usize)
    requires few { drawn ≤ 8 }
    requires most { drawn + count ≤ 31 }
    requires first_size { drawn * length own.now ≤ length first.now }
    requires size { count * length own.now ≤ length rest.old }
    requires base { AreBase own.now first.now drawn }
    ensures { (base : List AShare)
        × AreSharesOf (own.now ∷ first_texts (length own.now) first.now drawn) base
        × ((j : ℕ) → j < count → IsDerivedString base (split_index (drawn + j))
        (text_at (length own.now) rest.new j)) }
{
    let mut room = [share_of(own); MOST_OF_BASE];
    put_shares(&mut room[1..], first, own.len(), drawn);
    put_all_derived(rest, &room[..drawn + 1], drawn, count);
}

// Puts behind the first shares, which are as many as `drawn`, those that they and the secret's own
// string give.
pub(crate) fn put_others(texts: &mut [u8], own: &[u8], drawn: usize, count: usize)
    requires few { drawn ≤ 8 }
    requires within { drawn ≤ count }
    requires most { count ≤ 31 }
    requires size { length texts.old ≡ count * length own.now }
    requires base { AreBase own.now texts.old drawn }
    ensures shares { (base : List AShare)
        × AreSharesOf (own.now ∷ first_texts (length own.now) texts.new drawn) base
        × ((j : ℕ) → drawn ≤ j → j < count
        → IsDerivedString base (split_index j) (text_at (length own.now) texts.new j)) }
    ensures before { (j : ℕ) → j < drawn
        → text_at (length own.now) texts.new j ≡ text_at (length own.now) texts.old j }
{
    let (first, rest) = texts.split_at_mut(drawn * own.len());
    put_given(rest, own, first, drawn, count - drawn);
}
