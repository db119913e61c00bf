//! The library's version.
ghost use Rattle.std.specs.Prelude.{◌≡◌};

/// 10,000 times the major number, 100 times the minor one and the patch. The header has the same.
#[unsafe(no_mangle)]
pub extern "C" fn nidzaru_version() -> u32
    ensures { result ≡ 20100 }
{
    20100
}
