// The archive's version.
ghost use Rattle.std.specs.Prelude.{◌≡◌};
ghost use Rattle.items_exports.specs.Version.{version};

// The archive's version.
#[unsafe(no_mangle)]
pub extern "C" fn mihadrena_version() -> u32
    ensures { result ≡ version }
{
    items_exports::mihadrena_version()
}
