//! How many errors are looked for.

ghost use Rattle.std.specs.Prelude.{◌≡◌, ◌≤◌};
ghost use Rattle.bech32_suggest.specs.Chance.{most_errors};
ghost use Rattle.bech32_suggest.specs.Typed.{max_typed_length};

/// How many errors are looked for in this many characters behind the separator, beside as many of
/// them that cannot be read. None where nothing is tried.
pub(crate) fn errors_for(size: usize, unread: usize) -> Option<usize>
    requires { size ≤ max_typed_length }
    ensures { result ≡ most_errors size unread }
{
    if size < 10 {
        return None;
    }
    match unread {
        0 => Some(2),
        1 => Some(if size <= 20 { 2 } else { 1 }),
        2 => Some(1),
        3 => Some(0),
        _ => None,
    }
}
