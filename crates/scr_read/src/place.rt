//! Where a reader stands in a sheet, and the lines that may stand there.

ghost use Rattle.std.specs.Prelude.{◌↔◌, ◌+◌, ◌<◌, ◌≤◌, IsTrue, IfSome, IsNone};
ghost use Rattle.scr_notation.specs.Event.{per_group_of};
ghost use Rattle.scr_read.specs.Heads.{HeadOf};
ghost use Rattle.scr_read.specs.Reading as spec;
ghost use Rattle.scr_read.specs.Reading.{Between, IsHeading, IsWhole};
ghost use Rattle.scr_read.specs.Places.{place_of, IsStand, ReadsHead, ReadsLine};
ghost use Rattle.scr_read.specs.declared.place.Stand.TheVariants.{InGroup};

use crate::fault::SheetCause;
use crate::head::read_head;
use crate::lines::behind;
use crate::piece::Piece;
use scr_notation::{Event, parse_bytes};
use scr_round::{group_name, label};

/// Where a reader stands.
#[derive(Clone, Copy)]
pub(crate) enum Stand {
    /// Before the first line.
    Start,
    /// Behind the head of a round, or behind a group.
    Between {
        /// How many rounds began.
        rounds: u32,
        /// The event of the last of them.
        event: Event,
        /// How many groups of it were read.
        groups: u32,
    },
    /// In a group, before the line of a slot or the line behind the last one.
    InGroup {
        /// How many rounds began.
        rounds: u32,
        /// The event of the last of them.
        event: Event,
        /// How many groups of it stand before this one.
        groups: u32,
        /// How many slots of the group were read.
        slot: u32,
    },
}

/// What is read of a line: a piece, and where the next line stands.
#[derive(Drop)]
pub(crate) struct Step {
    /// The piece.
    pub piece: Piece,
    /// Where the next line stands.
    pub next: Stand,
}

/// Whether the sheet may end here, or another round begin.
pub(crate) fn is_whole(stand: Stand) -> bool
    ensures { IsTrue result ↔ IsWhole (place_of stand) }
{
    match stand {
        Stand::Start => true,
        Stand::Between { groups, .. } => 1 <= groups,
        Stand::InGroup { .. } => false,
    }
}

/// Reads a line at a place.
pub(crate) fn read_line(stand: Stand, line: &[u8]) -> Result<Step, SheetCause>
    requires { IsStand stand }
    ensures { ReadsLine (place_of stand) line.now result }
{
    match stand {
        Stand::Start => read_round(0, line).ok_or(SheetCause::Head),
        Stand::Between {
            rounds,
            event,
            groups,
        } => read_between(rounds, event, groups, line),
        Stand::InGroup {
            rounds,
            event,
            groups,
            slot,
        } => {
            if slot < u32::from(event.per_group()) + 2 {
                read_slot(rounds, event, groups, slot, line)
            } else if line.is_empty() {
                Ok(Step {
                    piece: Piece::GroupEnd,
                    next: Stand::Between {
                        rounds,
                        event,
                        groups: groups + 1,
                    },
                })
            } else {
                Err(SheetCause::GroupEnd)
            }
        }
    }
}

/// Reads the head of a round, before which so many began.
fn read_round(rounds: u32, line: &[u8]) -> Option<Step>
    ensures found { IfSome result (ReadsHead rounds line.now) }
    ensures none { IsNone result → (head : HeadOf) → rounds < 256 → IsHeading rounds line.now head → ⊥ }
{
    if rounds >= 256 {
        return None;
    }
    let head = read_head(rounds, line)?;
    let event = head.event;
    Some(Step {
        piece: Piece::Head(head),
        next: Stand::Between {
            rounds: rounds + 1,
            event,
            groups: 0,
        },
    })
}

/// Reads the head of another round, or the name of the next group.
fn read_between(rounds: u32, event: Event, groups: u32, line: &[u8]) -> Result<Step, SheetCause>
    requires { groups ≤ 26 }
    ensures { ReadsLine (Between rounds event groups) line.now result }
{
    if behind("Round ", line).is_some() {
        if groups == 0 {
            return Err(SheetCause::Head);
        }
        return read_round(rounds, line).ok_or(SheetCause::Head);
    }
    if groups < 26 && line == group_name(groups).as_str().as_bytes() {
        Ok(Step {
            piece: Piece::Group(groups),
            next: Stand::InGroup {
                rounds,
                event,
                groups,
                slot: 0,
            },
        })
    } else {
        Err(SheetCause::Group)
    }
}

/// Reads the line of a slot of a group.
fn read_slot(
    rounds: u32,
    event: Event,
    groups: u32,
    slot: u32,
    line: &[u8],
) -> Result<Step, SheetCause>
    requires groups { groups < 26 }
    requires slot { slot < per_group_of event + 2 }
    ensures { ReadsLine (place_of (InGroup rounds event groups slot)) line.now result }
{
    let label = label(u32::from(event.per_group()), slot);
    let Some(text) = behind(label.as_str(), line) else {
        return Err(SheetCause::Label);
    };
    match parse_bytes(event, text) {
        Some(scramble) => Ok(Step {
            piece: Piece::Slot(scramble),
            next: Stand::InGroup {
                rounds,
                event,
                groups,
                slot: slot + 1,
            },
        }),
        None => Err(SheetCause::Scramble),
    }
}
