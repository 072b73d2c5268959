//! What is proved of answers: calls that do nothing. Where the good answer to a command is right,
//! each other is wrong, but for out of memory in the commands that allocate.

ghost use Rattle.std.specs.Prelude.{◌≡◌, ◌⊎◌, ℕ, List, Some, codes};
ghost use Rattle.bech32_gf.specs.declared.gf32.Fe32.{Fe32};
ghost use Rattle.bech32_checksum.specs.Code.{Code, bech32, bech32m};
ghost use Rattle.bech32_correction.specs.Mistyped.{HasResidue};
ghost use Rattle.bech32_decode.specs.Acceptance.{Accepts};
ghost use Rattle.bech32_decode.specs.Text.{IsInGrammar};
ghost use Rattle.bech32_near.specs.edits.NearEdits.{IsToldText};
ghost use Rattle.bech32_near.specs.declared.edits.edit.Edit.{Edit};
ghost use Rattle.b32_replies.specs.Locations.{AreLocations};
ghost use Rattle.line_program.specs.Refused.{err};
ghost use Rattle.mend.specs.Reply.{IsChecksumAnswer, IsEditsAnswer, IsFaultAnswer, IsNearTextsAnswer, IsNearTextsAtAnswer, SaysAccepted, SaysChecksum, SaysEdits, SaysNear};
ghost use Rattle.mend.specs.Request.{errors_of_word};

/// `nearest`: of a text that is refused for nothing but its residue, and a number of errors, the
/// texts near it are said; and the locations are those that the word lists.
pub fn near_texts_are_listed()
    ensures all { (code : Code) (text hrp data_part given word said : List ℕ)
        (residue : List Fe32) (errors : ℕ)
        → errors_of_word word ≡ Some errors → HasResidue code text hrp data_part residue
        → IsNearTextsAnswer code text given word said
        → SaysNear code text given errors said ⊎ (said ≡ err 91) }
    ensures at { (code : Code) (text locations given word said : List ℕ)
        → AreLocations locations given → IsNearTextsAtAnswer code text locations word said
        → IsNearTextsAnswer code text given word said }
{}

/// `edits`: of a text in the grammar, all texts that one edit makes of it are said; where there is
/// none, out of memory is not said either.
pub fn edits_are_listed()
    ensures all { (code : Code) (text said : List ℕ) → IsInGrammar text
        → IsEditsAnswer code text said → SaysEdits code text said ⊎ (said ≡ err 91) }
    ensures none { (code : Code) (text said : List ℕ) → IsInGrammar text
        → ((edit : Edit) (new : List ℕ) → IsToldText edit text new → Accepts code new → ⊥)
        → IsEditsAnswer code text said → SaysEdits code text said }
{}

/// `fault`: of a text that the checksum accepts, this is said.
pub fn accepted_texts_have_no_fault()
    ensures { (code : Code) (text said : List ℕ) → Accepts code text
        → IsFaultAnswer code text said → SaysAccepted code text said }
{}

/// `checksum`: the checksum that accepts a text is said.
pub fn accepting_checksums_are_named()
    ensures bech32m { (text said : List ℕ) → Accepts bech32m text
        → IsChecksumAnswer text said → SaysChecksum bech32m (codes "bech32m") text said }
    ensures bech32 { (text said : List ℕ) → Accepts bech32 text
        → IsChecksumAnswer text said → SaysChecksum bech32 (codes "bech32") text said }
{}
