// The version of the boundary: its names, numbers and orders. MAJOR is raised when one of them changes, MINOR when something is added.
ghost use Rattle.std.specs.Prelude.{◌≡◌};
ghost use Rattle.exports.specs.Version.{version};

const MAJOR: u32 = 2;

const MINOR: u32 = 1;

// MAJOR in the upper sixteen bits, and MINOR in the lower: a program holds it against the header that it was compiled with.
pub fn khalyksor_version() -> u32
    ensures { result ≡ version }
{
    MAJOR * 0x1_0000 + MINOR
}
