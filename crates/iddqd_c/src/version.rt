//! Which functions the library has.
ghost use Rattle.std.specs.Prelude.{◌≡◌};
ghost use Rattle.iddqd_c.specs.declared.version.TheConstants.{VERSION};

/// The number of this version. It rises with each function that comes, goes, or changes.
pub const VERSION: u32 = 3;

/// The version of the library, to be compared with `IDDQD_VERSION` of the header.
#[unsafe(no_mangle)]
pub extern "C" fn iddqd_version() -> u32
    ensures { result ≡ VERSION }
{
    VERSION
}
