//! Positions of a part, and how many there are.
ghost use Rattle.std.specs.Prelude.{◌≡◌, ◌*◌, ◌^◌, ◌<◌};
ghost use Rattle.scr_search.specs.Views.{index_beside};

use crate::turn_set::TurnSet;
use scr_table::TableName;

/// How many numbers a block has. The number of a cube in a part is that of a block, which is its position in the middle
/// layer's coordinate, and one in it, which its positions in the part's own two coordinates make.
pub const BLOCK: u64 = 1 << 32;

/// What is seen of a cube in a part: its position in each of three coordinates.
#[derive(Clone, Copy)]
pub struct PartPosition {
    /// In the first of the part's own: of flips, or of corners.
    pub one: u32,
    /// In the other of them: of twists, or of the edges above and below.
    pub other: u32,
    /// In that of the edges of the middle layer.
    pub middle: u32,
}

/// The turns of a part, each told by its place, how many positions its coordinates have, where it ends, and what its
/// pruning tables are.
pub struct Extent {
    /// How many turns there are.
    pub turns: u32,
    /// How many of them a word has at most.
    pub most: u32,
    /// The number of each among the 18, and zeros behind these.
    pub numbers: [u8; 18],
    /// For each of them the place of the one that takes it back, and zeros behind these.
    pub backs: [u32; 18],
    /// For each face of U R F D L B the set of the turns that may stand right behind one of it. Then that of all turns.
    pub behind: [u32; 7],
    /// The set of the turns that may be the last of a word.
    pub last: TurnSet,
    /// How many positions the first of its own coordinates has.
    pub ones: u32,
    /// How many the other has.
    pub others: u32,
    /// How many that of the middle layer has.
    pub middles: u32,
    /// The number of the cubes to which the words of the part lead.
    pub end: u64,
    /// Whether the middle layer comes first where it stands beside another coordinate.
    pub middle_first: bool,
    /// The table of the first of its own coordinates.
    pub one_table: TableName,
    /// That of the other.
    pub other_table: TableName,
    /// How far they may reach, in turns.
    pub bound: u32,
}

impl Extent {
    /// The position in a pruning table for one in a coordinate of the part's own, which has `owns` of them, and one in
    /// the middle layer's.
    #[inline]
    pub(crate) fn index(&self, owns: u32, own: u32, middle: u32) -> u32
        requires own { own < owns }
        requires middle { middle < self.now.middles }
        requires fits { owns * self.now.middles < 2 ^ 32 }
        ensures index { result ≡ index_beside self.now.middle_first owns self.now.middles own middle }
        ensures below { result < owns * self.now.middles }
    {
        if self.middle_first {
            middle + self.middles * own
        } else {
            own + owns * middle
        }
    }
}
