//! The lines of a round.

ghost use Rattle.std.specs.Prelude.{◌≡◌, ℕ, ◌+◌, ◌*◌, ◌≤◌, ◌<◌, Some, [], ◌∷◌, ◌++◌, length, codes, slice_get};
ghost use Rattle.std.specs.Fmt.{decimal};
ghost use Rattle.arrayvec.specs.ArrayString.{array_string_len};
ghost use Rattle.scr_round.specs.Round.{slots_of, labels_from, minimum_text, heading, round_lines};
ghost use Rattle.scr_round.specs.Round.{IsBelow, IsInRange};
ghost use Rattle.scr_round.specs.SheetLine.{line_of};

use arrayvec::ArrayString;
use scr_list::Round;
use scr_notation::Minima;
use scr_text::decimal;

/// A fixed text of a round has at most so many bytes.
pub const FIXED_ROOM: usize = 104;

/// A label of a slot has at most so many bytes.
pub const LABEL_ROOM: usize = 12;

/// A line of a round, without its line feed.
#[derive(Debug, Drop)]
pub enum SheetLine {
    /// A text that is there whatever the scrambles are.
    Fixed(ArrayString<FIXED_ROOM>),
    /// The scramble of a slot behind a label.
    Slot {
        /// What stands before the scramble.
        label: ArrayString<LABEL_ROOM>,
        /// The slot, counted from 0 through the round.
        slot: u32,
    },
}

/// How many slots a round has: at most 182.
pub fn slots(round: &Round) -> u32
    requires { IsInRange round.now }
    ensures count { result ≡ slots_of round.now }
    ensures few { result ≤ 182 }
{
    u32::from(round.groups) * (u32::from(round.event.row().per_group) + 2)
}

/// How many lines a round has, whichever its place in the list: at most 235.
pub fn line_count(round: &Round) -> u32
    requires { IsInRange round.now }
    ensures count { (k : ℕ) → length (round_lines k round.now) ≡ result }
    ensures few { result ≤ 235 }
{
    1 + u32::from(round.groups) * (u32::from(round.event.row().per_group) + 4)
}

/// Line number `line`, from 0, of round `index` of a list, counted from 0 too.
pub fn line_at(index: u32, round: &Round, line: u32) -> SheetLine
    requires index { index < 256 }
    requires round { IsInRange round.now }
    requires line { line < length (round_lines index round.now) }
    ensures value { slice_get (round_lines index round.now) line ≡ Some (line_of result) }
    ensures slot { IsBelow (slots_of round.now) (line_of result) }
{
    if line == 0 {
        return SheetLine::Fixed(heading(index, round));
    }
    let own = u32::from(round.event.row().per_group);
    let size = own + 4;
    let group = (line - 1) / size;
    let place = (line - 1) % size;
    if place == 0 {
        return SheetLine::Fixed(group_name(group));
    }
    if place == own + 3 {
        return SheetLine::Fixed(ArrayString::new());
    }
    SheetLine::Slot {
        label: label(own, place - 1),
        slot: group * (own + 2) + (place - 1),
    }
}

/// The head of round `index` of a list, counted from 0. It says nothing of the number of groups.
pub fn heading(index: u32, round: &Round) -> ArrayString<FIXED_ROOM>
    requires { index < 256 }
    ensures { result.bytes ≡ heading index round.now }
{
    let mut head = ArrayString::new();
    head.push_str("Round ");
    head.push_str(decimal(index + 1).as_str());
    head.push_str(": ");
    let row = round.event.row();
    head.push_str(row.name);
    push_minimum(&mut head, row.minima, round.least);
    if !round.name.is_empty() {
        head.push_str(", ");
        head.push_str(round.name.as_str());
    }
    head
}

/// Adds what the head says of the minimum.
fn push_minimum(head: &mut ArrayString<FIXED_ROOM>, minima: Option<Minima>, least: u8)
    requires { array_string_len head.old ≤ 40 }
    ensures bytes { head.new.bytes ≡ head.old.bytes ++ minimum_text minima least }
    ensures short { array_string_len head.new ≤ 61 }
{
    match minima {
        Some(_) => {
            head.push_str(", at least ");
            head.push_str(decimal(u32::from(least)).as_str());
        }
        None => head.push_str(", random moves"),
    }
}

/// The name of a group by its number from 0: its letter, from A.
pub fn group_name(group: u32) -> ArrayString<FIXED_ROOM>
    requires { group < 26 }
    ensures { result.bytes ≡ codes "Group " ++ (65 + group) ∷ [] }
{
    let mut name = ArrayString::new();
    name.push_str("Group ");
    name.push((b'A' + group as u8) as char);
    name
}

/// The label of the scramble at a place of a group, from 0, which has `own` scrambles besides the extra ones: its
/// number, from 1, and behind them E1 and E2.
pub fn label(own: u32, place: u32) -> ArrayString<LABEL_ROOM>
    requires own { own ≤ 5 }
    requires place { place < own + 2 }
    ensures { slice_get (labels_from 1 own) place ≡ Some result.bytes }
{
    let mut label = ArrayString::new();
    if place < own {
        label.push_str(decimal(place + 1).as_str());
        label.push_str(". ");
    } else if place == own {
        label.push_str("E1. ");
    } else {
        label.push_str("E2. ");
    }
    label
}
