//! Why a text is no sheet.

ghost use Rattle.std.specs.Prelude.{◌≡◌, ◌≤◌, length};
ghost use Rattle.scr_read.specs.Causes.{cause_text};

/// What is wrong with the first line at fault.
#[derive(Clone, Copy, Debug, PartialEq, Eq)]
pub enum SheetCause {
    /// The text ends before it, within a round.
    End,
    /// The text ends in it, without a line feed.
    LineFeed,
    /// It had to be the head of the next round, and is none: by its number, its event, its minimum or its name, or
    /// since no round may begin there, or no more.
    Head,
    /// It had to be the name of the next group, and is none, or no more groups may follow.
    Group,
    /// It doesn't begin with the label of the next scramble.
    Label,
    /// Behind the label stands no scramble of the event.
    Scramble,
    /// It had to be the empty line that ends a group.
    GroupEnd,
}

impl SheetCause {
    /// What a message says of it: a few words.
    pub fn text(self) -> &'static str
        ensures words { result.now ≡ cause_text self }
        ensures few { length result.now ≤ 40 }
    {
        match self {
            SheetCause::End => "the sheet ends within a round",
            SheetCause::LineFeed => "no line feed ends the last line",
            SheetCause::Head => "no head of the next round",
            SheetCause::Group => "no name of the next group",
            SheetCause::Label => "not the label of the next scramble",
            SheetCause::Scramble => "no scramble of the event",
            SheetCause::GroupEnd => "no empty line behind the group",
        }
    }
}

/// The first line at fault.
#[derive(Clone, Copy, Debug, PartialEq, Eq)]
pub struct SheetFault {
    /// Its number, from 1.
    pub line: u32,
    /// What is wrong with it.
    pub cause: SheetCause,
}
