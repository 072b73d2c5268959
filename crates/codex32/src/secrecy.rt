//! What few shares of a split say.

ghost use Rattle.std.specs.Prelude.{◌≡◌, ℕ, List, None, length, nat_lt, true};
ghost use Rattle.std.specs.List.{list_all};
ghost use Rattle.codex32.specs.Secrecy.{AreOneTooFew, DealKnown, HasOneDeal};
ghost use Rattle.codex32.specs.Split.{IsSplit, split_refusal};
ghost use Rattle.codex32.specs.declared.identifier.Identifier.{Identifier as AnIdentifier};
ghost use Rattle.codex32.specs.declared.threshold.Threshold.{Threshold as AThreshold};

/// Perfect secrecy of what [`split_into`] puts; the call does nothing. Whichever shares of a split
/// are known, one fewer than the threshold, and whatever other secret has as many bytes: exactly
/// one choice of the characters that are drawn splits that secret into shares of which the known
/// ones are the same. So if the random bytes are uniform, each secret gives the known shares with
/// the same probability. Of fewer shares that is so too: they are among these. And that choice is
/// the one of random bytes that are not refused: the known shares may be those of each secret.
///
/// [`split_into`]: crate::split_into
pub fn fewer_shares_of_a_split_say_nothing()
    ensures one { (t : AThreshold) (i : AnIdentifier) (secret other random : List ℕ)
        (count n room : ℕ) (texts numbers : List ℕ)
        → split_refusal t (length secret) count random room ≡ None
        → IsSplit t i secret random count n texts → AreOneTooFew t count numbers
        → length other ≡ length secret → HasOneDeal t i other count n numbers texts }
    ensures accepted { (t : AThreshold) (i : AnIdentifier) (secret other random : List ℕ)
        (count n room : ℕ) (texts numbers : List ℕ)
        → split_refusal t (length secret) count random room ≡ None
        → IsSplit t i secret random count n texts → AreOneTooFew t count numbers
        → length other ≡ length secret → (again : List ℕ)
        × (list_all (λ b. nat_lt b 256) again ≡ true)
        × (split_refusal t (length other) count again room ≡ None)
        × DealKnown t i other again count n numbers texts }
{}
