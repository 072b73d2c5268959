//! Says which version of the library this is.
//!
//! Made by tools/make (tools/make.d/small_surfaces) from
//! `crates/codex32_c/src/version.rt`; do not edit.

ghost use Rattle.std.specs.Prelude.{◌≡◌};

/// See `codex32_version` in `include/codex32.h`.
#[unsafe(no_mangle)]
pub extern "C" fn codex32_version() -> u32
    ensures { result ≡ 100 }
{
    100
}
