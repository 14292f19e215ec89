//! Nets, and what turns make of them.
ghost use Rattle.std.specs.Prelude.{◌≡◌, ℕ, ◌-◌, ◌<◌, ◌≤◌, [], All, IsTrue, length, slice_index};
ghost use Rattle.std.specs.List.{slice_index_or};
ghost use Rattle.scr_combinatorics.specs.Play.{play};
ghost use Rattle.scr_notation.specs.declared.event.Event.{Event as TurnsOf};
ghost use Rattle.scr_notation.specs.Turns.{permits};
ghost use Rattle.scr_net.specs.declared.geometry.Sticker.{Sticker as Place};
ghost use Rattle.scr_net.specs.Geometry.{IsSticker, brought_from, carried_sticker, sticker_at};
ghost use Rattle.scr_net.specs.Nets.{HasShape, IsNet, IsSide, cell, letter_at, solved_net, quarter_net, turned_net, net_after};

use crate::geometry::{Sticker, brought_from, by_face, carried_sticker, column_of, row_of};
use crate::shown::shown;
use scr_notation::{Scramble, Turn};
use std::marker::Model;

/// The net of a cube of `SIDE` layers, from 2 to 7: the letter at each row and column of each face. The faces U R F D L
/// B are 0 to 5, and a letter is the number of the face that has it on a solved cube.
#[derive(Clone, Copy, Debug, PartialEq, Eq)]
pub struct Net<const SIDE: usize> {
    letters: [[[u8; SIDE]; SIDE]; 6],
}

// Clauses see the letters.
impl<const SIDE: usize> Model for Net<SIDE> {
    ghost use Rattle.scr_net.specs.Nets.{Letters, IsNet};

    ghost Value = { Letters };

    ghost view = { λ n. n.letters };

    ghost invariant = { λ n. IsNet SIDE n.letters };

    ghost inverse = { λ letters. record { letters = letters } };
}

impl<const SIDE: usize> Net<SIDE> {
    /// The net of the solved cube.
    pub fn solved() -> Net<SIDE>
        requires { IsSide SIDE }
        ensures { result ≡ solved_net SIDE }
    {
        Net::of_rule(
            |sticker: Sticker| -> u8
                ensures { result ≡ sticker.face }
            { sticker.face },
        )
    }

    /// The net whose letters a rule gives, sticker by sticker.
    #[inline(always)]
    pub(crate) fn of_rule<F: Fn(Sticker) -> u8>(letter: F) -> Net<SIDE>
        requires side { IsSide SIDE }
        requires callable { (s : Place) → IsSticker (SIDE - 1) s → F.pre letter s }
        requires below { (s : Place) (r : ℕ) → IsSticker (SIDE - 1) s → F.post letter s r → r < 6 }
        ensures shape { HasShape SIDE result }
        ensures each { (face row column : ℕ) → face < 6 → row < SIDE → column < SIDE
            → F.post letter (sticker_at (SIDE - 1) face row column) (cell result face row column) }
    {
        Net {
            letters: shown(letter),
        }
    }

    /// The letter, below 6, at a row and a column of a face: faces are 0 to 5 for U R F D L B, rows and columns below
    /// the number of layers.
    pub fn cell(&self, face: u8, row: u8, column: u8) -> u8
        requires face { face < 6 }
        requires row { row < SIDE }
        requires column { column < SIDE }
        ensures value { result ≡ cell self.now face row column }
        ensures below { result < 6 }
        ensures valid { IsNet SIDE self.now }
    {
        self.letters[usize::from(face)][usize::from(row)][usize::from(column)]
    }

    /// The net after the `depth` outer layers at a face, at least 1 and fewer than all, were turned, clockwise by
    /// `amount` quarters, 1 to 3. Faces are 0 to 5 for U R F D L B.
    pub fn turn(&self, face: u8, depth: u8, amount: u8) -> Net<SIDE>
        requires side { IsSide SIDE }
        requires face { face < 6 }
        requires some { 1 ≤ depth }
        requires depth { depth < SIDE }
        requires quarters { 1 ≤ amount }
        requires few { amount ≤ 3 }
        ensures { result ≡ turned_net SIDE face depth amount self.now }
    {
        let depth = usize::from(depth);
        if amount == 3 {
            return self.quarter_back(face, depth);
        }
        let once = self.quarter(face, depth);
        if amount == 1 {
            once
        } else {
            once.quarter(face, depth)
        }
    }

    /// The net after a quarter turn of `depth` layers at a face. Each face's code is written out, and knows its face.
    fn quarter(&self, face: u8, depth: usize) -> Net<SIDE>
        requires side { IsSide SIDE }
        requires face { face < 6 }
        ensures { result ≡ quarter_net SIDE face depth self.now }
    {
        by_face! { face;
            self.quarter_about(0, depth),
            self.quarter_about(1, depth),
            self.quarter_about(2, depth),
            self.quarter_about(3, depth),
            self.quarter_about(4, depth),
            self.quarter_about(5, depth),
        }
    }

    /// The same, of the face that is named where this is called.
    #[inline(always)]
    fn quarter_about(&self, face: u8, depth: usize) -> Net<SIDE>
        requires side { IsSide SIDE }
        requires face { face < 6 }
        ensures { result ≡ quarter_net SIDE face depth self.now }
    {
        Net::of_rule(
            |sticker: Sticker| -> u8
                requires side { IsSide SIDE }
                requires face { face < 6 }
                requires sticker { IsSticker (SIDE - 1) sticker }
                ensures value { result ≡ letter_at SIDE self.entry.now (brought_from (SIDE - 1) face depth sticker) }
                ensures below { result < 6 }
            { self.letter_at(brought_from(SIDE - 1, face, depth, sticker)) },
        )
    }

    /// The net after three quarter turns of `depth` layers at a face, which are one the other way.
    fn quarter_back(&self, face: u8, depth: usize) -> Net<SIDE>
        requires side { IsSide SIDE }
        requires face { face < 6 }
        ensures { result ≡ turned_net SIDE face depth 3 self.now }
    {
        by_face! { face;
            self.quarter_back_about(0, depth),
            self.quarter_back_about(1, depth),
            self.quarter_back_about(2, depth),
            self.quarter_back_about(3, depth),
            self.quarter_back_about(4, depth),
            self.quarter_back_about(5, depth),
        }
    }

    /// The same, of the face that is named where this is called.
    #[inline(always)]
    fn quarter_back_about(&self, face: u8, depth: usize) -> Net<SIDE>
        requires side { IsSide SIDE }
        requires face { face < 6 }
        ensures { result ≡ turned_net SIDE face depth 3 self.now }
    {
        Net::of_rule(
            |sticker: Sticker| -> u8
                requires side { IsSide SIDE }
                requires face { face < 6 }
                requires sticker { IsSticker (SIDE - 1) sticker }
                ensures value { result ≡ letter_at SIDE self.entry.now (carried_sticker (SIDE - 1) face depth sticker) }
                ensures below { result < 6 }
            { self.letter_at(carried_sticker(SIDE - 1, face, depth, sticker)) },
        )
    }

    /// The letter at a sticker.
    #[inline(always)]
    fn letter_at(&self, sticker: Sticker) -> u8
        requires side { IsSide SIDE }
        requires sticker { IsSticker (SIDE - 1) sticker }
        ensures value { result ≡ letter_at SIDE self.now sticker }
        ensures below { result < 6 }
    {
        let row = row_of(SIDE - 1, sticker.face, sticker.point);
        let column = column_of(SIDE - 1, sticker.face, sticker.point);
        self.letters[usize::from(sticker.face)][row][column]
    }

    /// The net after the turns of a scramble. `None` comes exactly where one of them isn't a turn of layers at a face,
    /// or is of all layers.
    pub fn play(&self, scramble: &Scramble) -> Option<Net<SIDE>>
        requires { IsSide SIDE }
        ensures { result ≡ play (net_after SIDE) self.now scramble.now.turns }
    {
        let mut net = *self;
        for turn in scramble.turns() {
            net = net.after(*turn)?;
        }
        Some(net)
    }

    /// The net after a turn that some event has, or `None` where it isn't one of layers at a face, or is of all layers.
    fn after(&self, turn: Turn) -> Option<Net<SIDE>>
        requires side { IsSide SIDE }
        requires permitted { (event : TurnsOf) × IsTrue (permits event turn) }
        ensures { result ≡ net_after SIDE self.now turn }
    {
        match turn {
            Turn::Face {
                face,
                depth,
                amount,
            } if usize::from(depth) < SIDE => Some(self.turn(face, depth, amount)),
            _ => None,
        }
    }

    /// A row of a face.
    pub(crate) fn row(&self, face: u8, row: usize) -> &[u8]
        requires face { face < 6 }
        requires row { row < SIDE }
        ensures value { result.now ≡ slice_index_or (slice_index_or self.now face []) row [] }
        ensures long { length result.now ≡ SIDE }
        ensures letters { (column : ℕ) → slice_index result.now column < 6 }
        ensures net { IsNet SIDE self.now }
    {
        let faces = &self.letters[..];
        let rows = &faces[usize::from(face)][..];
        &rows[row][..]
    }
}
