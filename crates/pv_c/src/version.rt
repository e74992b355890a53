// Which version of the library this is.
ghost use Rattle.std.specs.Prelude.{◌≡◌};

// As embed/VERSION has it: 10,000 times the first number, 100 times the second, and the third.
const VERSION: u32 = 300;

/// The version of the library, as `POLYDB_VERSION_NUMBER` of the header that it goes with.
#[unsafe(no_mangle)]
pub extern "C" fn polydb_version() -> u32
    ensures { result ≡ 300 }
{
    VERSION
}
