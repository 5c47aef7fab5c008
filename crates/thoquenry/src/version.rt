// The version of the library.
ghost use Rattle.std.specs.Prelude.{◌≡◌};
ghost use Rattle.thoquenry.specs.Version.{version};

pub fn thq_version() -> u64
    ensures { result ≡ version }
{
    500
}
