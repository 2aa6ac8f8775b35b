// The version of the library.
ghost use Rattle.std.specs.Prelude.{◌≡◌};
ghost use Rattle.kiwimound.specs.Version.{version};

// The version as a number. The name has it too: include/kiwimound.h refers to it, so that a program which was compiled
// for this version links with a library of no other.
#[unsafe(no_mangle)]
pub extern "C" fn kiwimound_version_2() -> u32
    ensures { result ≡ version }
{
    2
}
