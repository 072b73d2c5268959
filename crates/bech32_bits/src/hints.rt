//! Bounds on how many items are to come.

ghost use Rattle.std.specs.Prelude.{◌≡◌, ◌+◌};
ghost use Rattle.bech32_bits.specs.SizeHints.{hint_map};

/// The bounds where this many more items come.
#[inline]
pub fn longer_hint(hint: (usize, Option<usize>), more: usize) -> (usize, Option<usize>)
    ensures { result ≡ hint_map (λ n. n + more) hint }
{
    let upper = match hint.1 {
        Some(upper) => upper.checked_add(more),
        None => None,
    };
    (hint.0.saturating_add(more), upper)
}
