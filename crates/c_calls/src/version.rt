// The version of the library, for a caller to compare with that of the header file or wrapper that it was compiled with.
ghost use Rattle.std.specs.Prelude.{◌≡◌};
ghost use Rattle.c_calls.specs.Version.{version};

// 10000 × major + 100 × minor + patch.
pub const VERSION: u32 = 600;

#[unsafe(no_mangle)]
pub extern "C" fn packet_window_version() -> u32
    ensures { result ≡ version }
{
    VERSION
}
