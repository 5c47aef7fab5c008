// The version of the library.
ghost use Rattle.std.specs.Prelude.{◌≡◌};
ghost use Rattle.thoquenry.specs.Version.{version};

#[unsafe(no_mangle)]
pub extern "C" fn thq_version() -> u64
    ensures { result ≡ version }
{
    thoquenry::thq_version()
}
