//! What is proved of answers: calls that do nothing. Where the good answer to a command is right,
//! each other is wrong, but for out of memory in the commands that allocate.

ghost use Rattle.std.specs.Prelude.{◌≡◌, ◌⊎◌, ◌≤◌, ℕ, List, Some};
ghost use Rattle.bech32_gf.specs.declared.gf32.Fe32.{Fe32};
ghost use Rattle.bech32_bits.specs.Bits.{to_fes};
ghost use Rattle.bech32_checksum.specs.Code.{Code};
ghost use Rattle.bech32_checksum.specs.Roots.{singleton_bound};
ghost use Rattle.bech32_hrp.specs.Hrp.{IsHrp};
ghost use Rattle.bech32_decode.specs.Acceptance.{Accepts, IsAcceptedByEither};
ghost use Rattle.bech32_decode.specs.Segwit.{IsAddressText};
ghost use Rattle.bech32_encode.specs.TextLength.{encoded_length_of};
ghost use Rattle.bech32_correction.specs.Mistyped.{HasNoListing, IsListingOf};
ghost use Rattle.bech32_segwit.specs.SegwitEncoding.{HasAddress};
ghost use Rattle.line_program.specs.Refused.{err};
ghost use Rattle.b32_replies.specs.Hex.{bytes_of};
ghost use Rattle.b32_replies.specs.Locations.{AreLocations};
ghost use Rattle.b32_replies.specs.Reply.{IsCorrectAnswer, IsCorrectAtAnswer, IsDecodeAnswer, IsEncodeAnswer, IsSegwitDecodeAnswer, IsSegwitEncodeAnswer, IsVersionWord, SaysAddress, SaysBytes, SaysFine, SaysMended, SaysNone, SaysProgram, SaysText};

/// `encode`: of a human-readable part and a word for bytes, the text is said where it is no longer
/// than the code.
pub fn texts_are_encoded()
    ensures { (code : Code) (hrp hex bytes said : List ℕ)
        → bytes_of hex ≡ Some bytes → IsHrp hrp
        → encoded_length_of code hrp (to_fes bytes) ≤ code.code_length
        → IsEncodeAnswer code hrp hex said → SaysText code hrp bytes said }
{}

/// `decode`: the bytes of a text that either checksum accepts are said.
pub fn accepted_texts_are_decoded()
    ensures { (text said : List ℕ) → IsAcceptedByEither text → IsDecodeAnswer text said
        → SaysBytes text said ⊎ (said ≡ err 91) }
{}

/// `segwit-encode`: of a human-readable part, the number of a version and a word for a program, the
/// address is said where there is one.
pub fn addresses_are_encoded()
    ensures { (hrp word hex : List ℕ) (version : Fe32) (program said : List ℕ)
        → IsVersionWord word version → bytes_of hex ≡ Some program → IsHrp hrp
        → HasAddress hrp version program → IsSegwitEncodeAnswer hrp word hex said
        → SaysAddress hrp version program said }
{}

/// `segwit-decode`: the program of an address is said.
pub fn addresses_are_decoded()
    ensures { (text said : List ℕ) → IsAddressText text → IsSegwitDecodeAnswer text said
        → SaysProgram text said ⊎ (said ≡ err 91) }
{}

/// `correct`: of a text that the checksum accepts, of one that has a listing, and of one that has
/// none, just that is said; and the locations are those that the word lists.
pub fn texts_are_corrected()
    ensures fine { (code : Code) (text given said : List ℕ) → Accepts code text
        → IsCorrectAnswer code text given said → SaysFine code text said }
    ensures mended { (code : Code) (text given said : List ℕ) (listing : List (ℕ × Fe32))
        → IsListingOf code (singleton_bound 24 26) text given listing
        → IsCorrectAnswer code text given said → SaysMended code text given said }
    ensures none { (code : Code) (text given said : List ℕ)
        → HasNoListing code (singleton_bound 24 26) text given
        → IsCorrectAnswer code text given said → SaysNone code text given said }
    ensures at { (code : Code) (text word given said : List ℕ) → AreLocations word given
        → IsCorrectAtAnswer code text word said → IsCorrectAnswer code text given said }
{}
