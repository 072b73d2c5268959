//! What is proved of shares: calls that do nothing.

ghost use Rattle.std.specs.Prelude.{◌≡◌, ◌≢◌, ◌≤◌, ◌<◌, ◌↔◌, ◌++◌, length, List, ◌∷◌, ℕ};
ghost use Rattle.std.specs.List.{AllByRecursion};
ghost use Rattle.bech32_gf.specs.Fe32 as fe32;
ghost use Rattle.bech32_poly.specs.Distinct.{IsOnce};
ghost use Rattle.bech32_poly.specs.Polynomial.{coefficient};
ghost use Rattle.bech32_poly.specs.Remainder.{IsRemainder};
ghost use Rattle.bech32_poly.specs.RootSearch.{total_of};
ghost use Rattle.bech32_checksum.specs.Code.{Code};
ghost use Rattle.bech32_checksum.specs.TextPolynomial.{text_polynomial, IsChecksumOf, EndsInChecksum};
ghost use Rattle.bech32_encode.specs.ExactlyOne.{ExactlyOne};
ghost use Rattle.codex32_steady.specs.shares.Points.{IsValueThrough, AreWeights};
ghost use Rattle.codex32_steady.specs.shares.Shares.{column, DoAgree, AreShares, IsDerived, AreDerived, IsShareText, AreShareTexts};

use bech32_gf::gf32::Fe32;

/// Through points at different places there is a polynomial of degree below their number, and all
/// such have the same value at each x.
pub fn one_value_through_points()
    ensures exists { (xs ys : List Fe32) (x : Fe32) → length xs ≡ length ys → IsOnce xs
        → (y : Fe32) × IsValueThrough fe32.ops xs ys x y }
    ensures unique { (xs ys : List Fe32) (x y z : Fe32) → IsOnce xs
        → IsValueThrough fe32.ops xs ys x y → IsValueThrough fe32.ops xs ys x z → y ≡ z }
{}

/// Weights sum to one.
pub fn weights_sum_to_one()
    ensures { (xs : List Fe32) (x : Fe32) (ws : List Fe32) → 1 ≤ length xs
        → AreWeights fe32.ops xs x ws → total_of fe32.ops ws ≡ fe32.one }
{}

/// From shares there is one text for each index. An element that all shares have in common is kept,
/// and where each share has its index, the text has its own.
pub fn one_text_is_derived()
    ensures exists { (xs : List Fe32) (texts : List (List Fe32)) (n : ℕ) (x : Fe32)
        → AreShares xs texts n → (text : List Fe32) × IsDerived fe32.ops xs texts n x text }
    ensures unique { (xs : List Fe32) (texts : List (List Fe32)) (n : ℕ) (x : Fe32)
        (a b : List Fe32) → AreShares xs texts n
        → IsDerived fe32.ops xs texts n x a → IsDerived fe32.ops xs texts n x b → a ≡ b }
    ensures common { (xs : List Fe32) (texts : List (List Fe32)) (n : ℕ) (x : Fe32)
        (text : List Fe32) (i : ℕ) (c : Fe32) → AreShares xs texts n → 1 ≤ length xs
        → IsDerived fe32.ops xs texts n x text → i < n
        → AllByRecursion (λ t. coefficient fe32.ops t i ≡ c) texts
        → coefficient fe32.ops text i ≡ c }
    ensures index { (xs : List Fe32) (texts : List (List Fe32)) (n : ℕ) (x : Fe32)
        (text : List Fe32) (i : ℕ) → AreShares xs texts n → 2 ≤ length xs
        → IsDerived fe32.ops xs texts n x text → i < n
        → column fe32.ops texts i ≡ xs → coefficient fe32.ops text i ≡ x }
{}

/// What is derived from data parts that a checksum accepts, of one human-readable part, is
/// accepted.
pub fn derived_texts_are_accepted()
    ensures { (code : Code) (hrp : List ℕ) (xs : List Fe32) (texts : List (List Fe32)) (n : ℕ)
        (x : Fe32) (text : List Fe32) → AreShares xs texts n → 1 ≤ length xs
        → IsDerived fe32.ops xs texts n x text
        → AllByRecursion (λ t. IsRemainder fe32.ops code.generator (text_polynomial hrp t)
        code.target) texts
        → IsRemainder fe32.ops code.generator (text_polynomial hrp text) code.target }
{}

/// Recovery: as many texts as there are shares, derived from them for different indices, give for
/// each index the text that the shares give; and the shares are among what they give.
pub fn derived_texts_give_back_the_shares()
    ensures same { (xs : List Fe32) (texts : List (List Fe32)) (n : ℕ) (zs : List Fe32)
        (us : List (List Fe32)) (x : Fe32) (text : List Fe32) → AreShares xs texts n
        → IsOnce zs → length zs ≡ length xs → AreDerived fe32.ops xs texts n zs us
        → IsDerived fe32.ops xs texts n x text → IsDerived fe32.ops zs us n x text }
    ensures own { (xs : List Fe32) (texts : List (List Fe32)) (n : ℕ) → AreShares xs texts n
        → AreDerived fe32.ops xs texts n xs texts }
{}

/// All texts agree with each other, whichever stand first, exactly where those after the first
/// ones, which are as many as the threshold, are derived from them.
pub fn further_texts_agree_where_they_are_derived()
    ensures { (xs zs : List Fe32) (texts further : List (List Fe32)) (n : ℕ)
        → AreShares xs texts n → length further ≡ length zs
        → AllByRecursion (λ t. length t ≡ n) further
        → DoAgree fe32.ops (length xs) (xs ++ zs) (texts ++ further) n
        ↔ AreDerived fe32.ops xs texts n zs further }
{}

/// Secrecy: beside shares, one fewer than the threshold, at indices other than s and j, each text v
/// of their length is the one at j for exactly one text u at s.
pub fn fewer_shares_say_nothing()
    ensures { (xs : List Fe32) (texts : List (List Fe32)) (n : ℕ) (s j : Fe32) (v : List Fe32)
        → AreShares xs texts n → IsOnce (s ∷ j ∷ xs) → length v ≡ n
        → (u : List Fe32) × (length u ≡ n) × IsDerived fe32.ops (s ∷ xs) (u ∷ texts) n j v
        × ((w : List Fe32) → length w ≡ n
        → IsDerived fe32.ops (s ∷ xs) (w ∷ texts) n j v → w ≡ u) }
{}

/// What is derived from at least two strings of one header, each with its index, is a string of
/// that header with the index asked for, and its payload is derived from theirs.
pub fn derived_strings_are_strings()
    ensures { (code : Code) (hrp : List ℕ) (header : List Fe32) (n m : ℕ) (xs : List Fe32)
        (payloads texts : List (List Fe32)) (x : Fe32) (text : List Fe32)
        → 2 ≤ length xs → AreShares xs texts m
        → AreShareTexts (EndsInChecksum (IsChecksumOf code hrp)) header n xs payloads texts
        → IsDerived fe32.ops xs texts m x text
        → (payload : List Fe32)
        × IsShareText (EndsInChecksum (IsChecksumOf code hrp)) header n x payload text
        × IsDerived fe32.ops xs payloads n x payload }
{}

/// Secrecy of strings: beside strings of one header, at least one and one fewer than the threshold,
/// at indices other than s and j, whatever string t stands at j, there is exactly one string at s
/// with which they go together.
pub fn fewer_strings_say_nothing()
    ensures { (code : Code) (hrp : List ℕ) (header : List Fe32) (n : ℕ) (xs : List Fe32)
        (payloads texts : List (List Fe32)) (s j : Fe32) (v t : List Fe32)
        → 1 ≤ length xs → IsOnce (s ∷ j ∷ xs)
        → AreShareTexts (EndsInChecksum (IsChecksumOf code hrp)) header n xs payloads texts
        → IsShareText (EndsInChecksum (IsChecksumOf code hrp)) header n j v t
        → (u a : List Fe32)
        × IsShareText (EndsInChecksum (IsChecksumOf code hrp)) header n s u a
        × IsDerived fe32.ops (s ∷ xs) (a ∷ texts) (length t) j t
        × ((w b : List Fe32)
        → IsShareText (EndsInChecksum (IsChecksumOf code hrp)) header n s w b
        → IsDerived fe32.ops (s ∷ xs) (b ∷ texts) (length t) j t → (w ≡ u) × (b ≡ a)) }
{}

/// Perfect secrecy: whatever texts are known, one fewer than the threshold, given or derived, at
/// indices other than s, and whatever text of their length is the secret at s, the dealer has
/// exactly one choice of as many texts, at the indices that are dealt, by which the secret and the
/// choice give the known texts. So where the dealer draws texts uniformly, each secret gives the
/// known texts with the same probability.
pub fn each_secret_has_one_dealing()
    ensures { (n : ℕ) (s : Fe32) (dealt known : List Fe32) (secret : List Fe32)
        (texts : List (List Fe32)) → IsOnce (s ∷ dealt) → IsOnce (s ∷ known)
        → length dealt ≡ length known → AreShares known texts n → length secret ≡ n
        → ExactlyOne (λ choice. AreShares dealt choice n
        × AreDerived fe32.ops (s ∷ dealt) (secret ∷ choice) n known texts) }
{}

/// Perfect secrecy of strings of one header, at least one and one fewer than the threshold: for
/// each string at s, the dealer has exactly one choice of payloads, and of their strings, by which
/// that string and the choice give the known strings, the checksums among it.
pub fn each_secret_has_one_dealing_of_strings()
    ensures { (code : Code) (hrp : List ℕ) (header : List Fe32) (n : ℕ) (s : Fe32)
        (dealt known : List Fe32) (payload secret : List Fe32) (payloads texts : List (List Fe32))
        → IsOnce (s ∷ dealt) → IsOnce (s ∷ known)
        → length dealt ≡ length known → 1 ≤ length known
        → IsShareText (EndsInChecksum (IsChecksumOf code hrp)) header n s payload secret
        → AreShareTexts (EndsInChecksum (IsChecksumOf code hrp)) header n known payloads texts
        → ExactlyOne (λ (choice : List (List Fe32) × List (List Fe32)).
        AreShareTexts (EndsInChecksum (IsChecksumOf code hrp)) header n dealt choice.0 choice.1
        × AreDerived fe32.ops (s ∷ dealt) (secret ∷ choice.1) (length secret) known texts) }
{}
