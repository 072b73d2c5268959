//! What is proved of answers: calls that do nothing. Where the good answer to a command is right,
//! each other is wrong, but for out of memory in the commands that allocate.

ghost use Rattle.std.specs.Prelude.{◌≡◌, ◌⊎◌, ◌≤◌, ◌||◌, true, ℕ, List, length, None, Some};
ghost use Rattle.bech32_gf.specs.declared.gf32.Fe32.{Fe32 as Element};
ghost use Rattle.b32_replies.specs.Hex.{bytes_of};
ghost use Rattle.codex32.specs.Nearest.{IsNearestLongText, IsNearestText};
ghost use Rattle.codex32.specs.Damaged.{read_text};
ghost use Rattle.codex32.specs.Derive.{DoContradict, IsWholeSet};
ghost use Rattle.codex32.specs.Encode.{is_byte_count, is_long_byte_count};
ghost use Rattle.codex32.specs.HeaderParts.{header_word_fault, share_index_of_word, share_index_word_fault};
ghost use Rattle.codex32.specs.Share.{AreSharesOf, IsShareString};
ghost use Rattle.codex32.specs.ShareParts.{bits_left_over};
ghost use Rattle.codex32.specs.Strings.{IsCodex32, frame_refusal, long_frame_refusal};
ghost use Rattle.codex32.specs.declared.identifier.Identifier.{Identifier};
ghost use Rattle.codex32.specs.declared.share.Share.{Share as AShare};
ghost use Rattle.codex32.specs.declared.threshold.Threshold.{Threshold};
ghost use Rattle.line_program.specs.Refused.{err};
ghost use Rattle.c32_replies.specs.Reply.{IsDeriveAnswer, IsEncodeStringAnswer, IsParseAnswer, IsProposeAnswer, IsProposeLongAnswer, IsShareAnswer, IsSharesAnswer, SaysDerived, SaysEncoded, SaysNearest, SaysNoNearest, SaysParts, SaysShare};
ghost use Rattle.c32_replies.specs.Request.{AskedSplit};
ghost use Rattle.c32_replies.specs.Split.{IsAskedBy, IsSplitAnswer, SaysShares, split_fault};

/// `parse`: the parts of a codex32 string are said.
pub fn strings_are_parsed()
    ensures { (text said : List ℕ) → IsCodex32 text → IsParseAnswer text said
        → SaysParts text said }
{}

/// `propose` and `propose-long`: of a text that has its grammar, its length and its human-readable
/// part right, the nearest text is said where there is one, and else that there is none.
pub fn nearest_texts_are_proposed()
    ensures some { (text nearest said : List ℕ) → frame_refusal (read_text text) ≡ None
        → IsNearestText text nearest → IsProposeAnswer text said
        → SaysNearest IsNearestText frame_refusal text said ⊎ (said ≡ err 91) }
    ensures none { (text said : List ℕ) → frame_refusal (read_text text) ≡ None
        → ((nearest : List ℕ) → IsNearestText text nearest → ⊥) → IsProposeAnswer text said
        → SaysNoNearest IsNearestText frame_refusal text said ⊎ (said ≡ err 91) }
    ensures long_some { (text nearest said : List ℕ) → long_frame_refusal (read_text text) ≡ None
        → IsNearestLongText text nearest → IsProposeLongAnswer text said
        → SaysNearest IsNearestLongText long_frame_refusal text said ⊎ (said ≡ err 91) }
    ensures long_none { (text said : List ℕ) → long_frame_refusal (read_text text) ≡ None
        → ((nearest : List ℕ) → IsNearestLongText text nearest → ⊥)
        → IsProposeLongAnswer text said
        → SaysNoNearest IsNearestLongText long_frame_refusal text said ⊎ (said ≡ err 91) }
{}

/// `share`: the header and the bytes of a string of either length are said, where at most four bits
/// are left over.
pub fn shares_are_read()
    ensures { (text said payload : List ℕ) (t : Threshold) (i : Identifier) (x : Element)
        → IsShareString text t i x payload → bits_left_over (length payload) ≤ 4
        → IsShareAnswer text said → SaysShare text said }
{}

/// `encode`: of the words for a header and for bytes, of which a string has as many, the string is
/// said.
pub fn strings_are_encoded()
    ensures { (threshold identifier share_index hex bytes said : List ℕ)
        → bytes_of hex ≡ Some bytes → header_word_fault threshold identifier share_index ≡ None
        → is_byte_count (length bytes) || is_long_byte_count (length bytes) ≡ true
        → IsEncodeStringAnswer threshold identifier share_index hex said
        → SaysEncoded threshold identifier share_index hex said ⊎ (said ≡ err 91) }
{}

/// `derive` and `recover`: of texts that are a whole set, and do not contradict each other, the
/// string at the index is said.
pub fn strings_are_derived()
    ensures at { (x : Element) (texts : List (List ℕ)) (shares : List AShare) (said : List ℕ)
        → AreSharesOf texts shares → IsWholeSet shares x → (DoContradict shares → ⊥)
        → IsSharesAnswer x texts said → SaysDerived x texts said ⊎ (said ≡ err 91) }
    ensures word { (share_index : List ℕ) (texts : List (List ℕ)) (said : List ℕ)
        → share_index_word_fault share_index ≡ None → IsDeriveAnswer share_index texts said
        → IsSharesAnswer (share_index_of_word share_index) texts said }
{}

/// `split`: of words for a number of shares, a secret, random bytes, a threshold and an identifier,
/// for which nothing is wrong with a split, the shares are said.
pub fn secrets_are_split()
    ensures { (asked : AskedSplit) (count : ℕ) (secret random said : List ℕ) (t : Threshold)
        (i : Identifier) → IsAskedBy asked count secret random t i
        → split_fault t count secret random ≡ None → IsSplitAnswer asked said
        → SaysShares asked said ⊎ (said ≡ err 91) }
{}
