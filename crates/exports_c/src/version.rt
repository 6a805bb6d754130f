// The version of the boundary: its names, numbers and orders. MAJOR is raised when one of them changes, MINOR when something is added.
ghost use Rattle.std.specs.Prelude.{◌≡◌};
ghost use Rattle.exports.specs.Version.{version};

// exports::khalyksor_version.
#[unsafe(no_mangle)]
pub extern "C" fn khalyksor_version() -> u32
    ensures { result ≡ version }
{
    exports::khalyksor_version()
}
