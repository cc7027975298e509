// The versions of the format of logs.
ghost use Rattle.std.specs.Prelude.{◌≡◌};
ghost use Rattle.call_log.specs.Version.{version_number, version_numbered};

/// A version of the format. It says how the numbers of the entries are spelled, and nothing else: in
/// version 1 in as many bytes as the field is wide, in version 2 in as few as possible, and the clock by
/// what it is above that of the entry before.
#[derive(Clone, Copy)]
pub enum Version {
    One,
    Two,
}

impl Version {
    // The number that is in the head.
    pub(crate) fn number(self) -> u32
        ensures { result ≡ version_number self }
    {
        match self {
            Version::One => 1,
            Version::Two => 2,
        }
    }

    // The version with a number.
    pub(crate) fn from_number(number: u32) -> Option<Version>
        ensures { result ≡ version_numbered number }
    {
        match number {
            1 => Some(Version::One),
            2 => Some(Version::Two),
            _ => None,
        }
    }
}
