//! Says which version of the library this is.
//!
//! Made by tools/make (tools/make.d/small_surfaces) from
//! `crates/bech32_c/src/version.rt`; do not edit.

ghost use Rattle.std.specs.Prelude.{◌≡◌};

/// See `bech32_version` in `include/bech32.h`.
#[unsafe(no_mangle)]
pub extern "C" fn bech32_version() -> u32
    ensures { result ≡ 100 }
{
    100
}
