//! What sets of strings give.

ghost use Rattle.std.specs.Prelude.{◌≡◌, ◌↔◌, ℕ, List};
ghost use Rattle.std.specs.List.{AllByRecursion};
ghost use Rattle.bech32_encode.specs.ExactlyOne.{ExactlyOne};
ghost use Rattle.bech32_gf.specs.declared.gf32.Fe32.{Fe32 as Element};
ghost use Rattle.bech32_hrp.specs.Hrp.{lowered};
ghost use Rattle.bech32_poly.specs.Distinct.{IsAmong};
ghost use Rattle.codex32_steady.specs.shares.Shares.{AreShares};
ghost use Rattle.codex32.specs.Derive.{DoContradict, IsDerivedString, IsWholeSet, indices_of, rows_of, size_of};
ghost use Rattle.codex32.specs.Sets.{IsGivenShare};
ghost use Rattle.codex32.specs.Share.{IsShareOf, IsShareString, index_of_share};
ghost use Rattle.codex32.specs.declared.identifier.Identifier.{Identifier as AnIdentifier};
ghost use Rattle.codex32.specs.declared.share.Share.{Share as AShare};
ghost use Rattle.codex32.specs.declared.threshold.Threshold.{Threshold as AThreshold};

/// Laws of sets of strings that nothing is wrong with but perhaps their elements; the call does
/// nothing. A set is shares, of which the laws of shares speak. Where its shares do not contradict
/// each other, it gives exactly one string at each index; each of the shares is what it gives at
/// its index, in lower case, and so is each string that it gives, once it is read. And whatever
/// shares it gives make a set, that gives the same strings: it recovers the secret.
pub fn sets_give_one_string()
    ensures shares { (shares : List AShare) (x : Element) → IsWholeSet shares x
        → AreShares (indices_of shares) (rows_of shares) (size_of shares) }
    ensures one { (shares : List AShare) (x : Element) → IsWholeSet shares x
        → (DoContradict shares → ⊥) → ExactlyOne (IsDerivedString shares x) }
    ensures own { (shares : List AShare) (x : Element) (s : AShare) → IsWholeSet shares x
        → (DoContradict shares → ⊥) → IsAmong s shares → IsGivenShare shares s }
    ensures own_text { (shares : List AShare) (x : Element) (s : AShare) (text : List ℕ)
        → IsWholeSet shares x → (DoContradict shares → ⊥) → IsAmong s shares → IsShareOf text s
        → IsDerivedString shares (index_of_share s) (lowered text) }
    ensures read { (shares : List AShare) (x : Element) (text : List ℕ) (s : AShare)
        → IsWholeSet shares x → IsDerivedString shares x text → IsShareOf text s
        → (index_of_share s ≡ x) × IsGivenShare shares s }
    ensures same { (shares others : List AShare) (x : Element) (text : List ℕ)
        → IsWholeSet shares x → (DoContradict shares → ⊥) → IsWholeSet others x
        → AllByRecursion (IsGivenShare shares) others
        → IsDerivedString others x text ↔ IsDerivedString shares x text }
{}

/// A law of strings of either length; the call does nothing. A string has its parts only once.
pub fn strings_have_one_reading()
    ensures { (text : List ℕ) (t u : AThreshold) (i j : AnIdentifier) (x y : Element)
        (payload other : List ℕ) → IsShareString text t i x payload → IsShareString text u j y other
        → (t ≡ u) × (i ≡ j) × (x ≡ y) × (payload ≡ other) }
{}
