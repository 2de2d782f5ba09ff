//! The version of the library, by which a caller finds that it was made for another one.

ghost use Rattle.std.specs.Prelude.{◌≡◌};
ghost use Rattle.dcel_c.specs.Version.{version_number};

/// The version's three numbers. The file VERSION at the top says the same.
const VERSION: (u32, u32, u32) = (0, 2, 0);

/// Returns the version as one number: 1,000,000 times the first, and 1,000 times the second, and the
/// third.
#[unsafe(no_mangle)]
pub extern "C" fn dcel_version() -> u32
    ensures { result ≡ version_number 0 2 0 }
{
    let (major, minor, patch) = VERSION;
    major * 1_000_000 + minor * 1_000 + patch
}

/// Returns the same. A caller that names this function is linked with no other version.
#[unsafe(no_mangle)]
pub extern "C" fn dcel_version_0_2_0() -> u32
    ensures { result ≡ version_number 0 2 0 }
{
    dcel_version()
}
