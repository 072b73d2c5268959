//! Texts that are the only ones of what is decoded of them.

ghost use Rattle.std.specs.Prelude.{IfOk, IfErr, IsOkUnless};
ghost use Rattle.bech32_bits.specs.Bits.{to_fes};
ghost use Rattle.bech32.specs.Spelling.{GivesBytesBack, IsOnlyTextOf, IsStrictRefusal};
ghost use Rattle.bech32.specs.Spelling.{SpellsBytes};

use crate::content::{Content, content_in};
use bech32_checksum::Checksum;
use bech32_hrp::Hrp;
use bech32_refusals::TextError;
use std::alloc::Allocator;

/// Decodes a text that the checksum accepts, with memory from `alloc`: its human-readable part, in
/// the case of the text, and the bytes of its data.
///
/// Unlike [`decode_in`](crate::decode_in), it tests the bits behind the last whole byte. So, in its
/// case, the text is the only one that this function decodes by this checksum to its human-readable
/// part and its bytes; [`encode_in`](crate::encode_in) writes it from them, in lower case. Use this
/// for what identifies something, such as an account or a key.
///
/// # Errors
///
/// The first of: the text is not in the grammar; the checksum does not accept it; more than four
/// bits stand behind the last whole byte; these are not all zero; out of memory for the data.
pub fn decode_strict<Ck: Checksum, A: Allocator>(
    alloc: A,
    s: &str,
) -> Result<(Hrp, Vec<u8, A>), TextError>
    ensures value { IfOk result (IsOnlyTextOf (λ v. to_fes v.items) Ck.code s.now) }
    ensures accepts { SpellsBytes Ck.code s.now → IsOkUnless result TextError.Memory }
    ensures refused { IfErr result (IsStrictRefusal Ck.code s.now) }
    ensures back { GivesBytesBack (λ v. v.items) Ck.code s.now result }
{
    content_in::<Ck, A>(alloc, s, Content::Bytes)
}
