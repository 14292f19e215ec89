//! The names of letters, and texts of them.
ghost use Rattle.std.specs.Prelude.{◌≡◌, ◌*◌, ◌≤◌, All, length, map};
ghost use Rattle.arrayvec.specs.ArrayString.{array_string_len};
ghost use Rattle.scr_picture.specs.Names.{IsLine, joined_text, name_in, names_of, spaced_text};
ghost use Rattle.scr_picture.specs.declared.names.Alphabet.TheVariants.{Cube};

use arrayvec::ArrayString;

/// The text of a picture.
pub(crate) type Text = ArrayString<528>;

/// Letters of one kind.
#[derive(Clone, Copy)]
pub(crate) enum Alphabet {
    /// The faces of a cube or a Skewb.
    Cube,
    /// The faces of a Pyraminx.
    Pyraminx,
    /// The faces of a Megaminx.
    Megaminx,
    /// The hours of a Clock.
    Hours,
    /// The units of a Square-1.
    Units,
}

/// The names of the letters of a kind, in the order of their numbers.
fn names_of(alphabet: Alphabet) -> &'static [&'static str]
    ensures names { map (λ name. name.now) result.now ≡ names_of alphabet }
    ensures short { All (λ name. length name.now ≤ 3) result.now }
    ensures single { alphabet ≡ Cube → All (λ name. length name.now ≤ 1) result.now }
{
    match alphabet {
        Alphabet::Cube => &["U", "R", "F", "D", "L", "B"],
        Alphabet::Pyraminx => &["F", "R", "L", "D"],
        Alphabet::Megaminx => &[
            "U", "F", "R", "BR", "BL", "L", "D", "B", "DBR", "DR", "DL", "DBL",
        ],
        Alphabet::Hours => &[
            "12", "1", "2", "3", "4", "5", "6", "7", "8", "9", "10", "11",
        ],
        Alphabet::Units => &[
            "0", "1", "2", "3", "4", "5", "6", "7", "8", "9", "a", "b", "c", "d", "e", "f",
        ],
    }
}

/// The name of a letter; that of a number that is no letter is empty.
pub(crate) fn name_in(alphabet: Alphabet, letter: u8) -> &'static str
    ensures value { result.now ≡ name_in alphabet letter }
    ensures short { length result.now ≤ 3 }
    ensures single { alphabet ≡ Cube → length result.now ≤ 1 }
{
    match names_of(alphabet).get(usize::from(letter)) {
        Some(name) => name,
        None => "",
    }
}

/// Letters one behind another.
#[tactic(auto, using(crate::proofs::OneLine::joined_line))]
pub(crate) fn joined(alphabet: Alphabet, letters: &[u8]) -> Text
    requires { length letters.now ≤ 132 }
    ensures bytes { result.bytes ≡ joined_text alphabet letters.now }
    ensures line { IsLine result.bytes }
    ensures len { array_string_len result ≤ 3 * length letters.now }
{
    let mut text = ArrayString::new();
    for letter in letters {
        text.push_str(name_in(alphabet, *letter));
    }
    text
}

/// Letters with a space between two.
pub(crate) fn spaced(alphabet: Alphabet, letters: &[u8]) -> Text
    requires { length letters.now ≤ 132 }
    ensures bytes { result.bytes ≡ spaced_text alphabet letters.now }
    ensures line { IsLine result.bytes }
{
    let mut text = ArrayString::new();
    let Some((first, others)) = letters.split_first() else {
        return text;
    };
    text.push_str(name_in(alphabet, *first));
    for letter in others {
        text.push_str(" ");
        text.push_str(name_in(alphabet, *letter));
    }
    text
}
