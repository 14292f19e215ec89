//! The versions of lists.

ghost use Rattle.std.specs.Prelude.{◌≡◌};
ghost use Rattle.scr_list.specs.Versions.{version_of, begins_with_version_line};

/// A version of lists: how much its lists hold, and what their lines say.
#[derive(Clone, Copy, Debug, PartialEq, Eq)]
pub struct Version {
    /// A list has at most so many bytes.
    pub most_bytes: u32,
    /// It names at most so many rounds.
    pub most_rounds: usize,
    /// Whether its first line tells the version, and no round.
    pub has_version_line: bool,
    /// Whether a line may name its round, behind a colon.
    pub takes_names: bool,
}

/// The first version. Its lists tell no version.
pub const VERSION_1: Version = Version {
    most_bytes: 4096,
    most_rounds: 64,
    has_version_line: false,
    takes_names: false,
};

/// The second version. Its lists begin with the line `version 2`.
pub const VERSION_2: Version = Version {
    most_bytes: 16_384,
    most_rounds: 256,
    has_version_line: true,
    takes_names: true,
};

/// Room for the rounds of a list.
pub const ROUND_ROOM: usize = VERSION_2.most_rounds;

/// Room for the bytes of a list, and for one more, which tells that they are too many.
pub(crate) const BYTE_ROOM: usize = VERSION_2.most_bytes as usize + 1;

/// So many bytes at most tell whether a list of the first version is too long, and which version a list has.
pub(crate) const FIRST_ROOM: usize = VERSION_1.most_bytes as usize + 1;

/// The version of a list: the second where it begins with the line `version 2`, behind which a line feed stands, a
/// carriage return and a line feed, or nothing; else the first.
pub fn version_of(bytes: &[u8]) -> Version
    ensures { result ≡ version_of bytes.now }
{
    if begins_with_version_line(bytes) {
        VERSION_2
    } else {
        VERSION_1
    }
}

fn begins_with_version_line(bytes: &[u8]) -> bool
    ensures { result ≡ begins_with_version_line bytes.now }
{
    bytes == b"version 2".as_slice()
        || bytes.starts_with(b"version 2\n")
        || bytes.starts_with(b"version 2\r\n")
}
