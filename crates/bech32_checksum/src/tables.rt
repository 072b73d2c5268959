//! Tables that are linear.

/// A linear table, of its entries at 1, 2, 4 and so on: each entry is the sum without carry of
/// those that its place is made of. Several lists, each ended by `;`, give one table after another.
#[macro_export]
macro_rules! sums {
    (@ $([$($sum:expr),*])*) => { [$($($sum),*),*] };
    (@ $([$($sum:expr),*] $word:literal $($more:literal)*)*) => {
        $crate::sums!(@ $([$($sum,)* $($sum ^ $word),*] $($more)*)*)
    };
    ($($($word:literal),+);+ $(;)?) => { $crate::sums!(@ $([0] $($word)*)*) };
}
