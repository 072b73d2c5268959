//! Says which version of the library this is.

ghost use Rattle.std.specs.Prelude.{◌≡◌};

/// See `bech32_version` in `include/bech32.h`.
#[unsafe(no_mangle)]
pub extern "C" fn bech32_version() -> u32
    ensures { result ≡ 100 }
{
    100
}
