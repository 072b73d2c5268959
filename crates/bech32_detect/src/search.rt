//! Whether three numbers of a sorted list add up to a given one, bit by bit.

ghost use Rattle.std.specs.Prelude.{◌↔◌, IsTrue};
ghost use Rattle.std.specs.List.{Contains};
ghost use Rattle.std.specs.List.Sorted.{IsSorted};
ghost use Rattle.std.specs.Ordering.{nat_cmp};
ghost use Rattle.bech32_detect.specs.Rows.{HasPair, HasThree};

// Whether the list has the number.
fn is_among(rows: &[u128], row: u128) -> bool
    requires { IsSorted nat_cmp rows.now }
    ensures { IsTrue result ↔ Contains rows.now row }
{
    rows.binary_search(&row).is_ok()
}

// Whether two numbers of the list add up to the sum.
fn has_pair(rows: &[u128], sum: u128) -> bool
    requires { IsSorted nat_cmp rows.now }
    ensures { IsTrue result ↔ HasPair rows.now sum }
{
    rows.iter().any(|row| is_among(rows, sum ^ *row))
}

/// Whether three numbers of the list add up to the sum.
pub(super) fn has_three(rows: &[u128], sum: u128) -> bool
    requires { IsSorted nat_cmp rows.now }
    ensures { IsTrue result ↔ HasThree rows.now sum }
{
    rows.iter().any(|row| has_pair(rows, sum ^ *row))
}
