//! The first part: what a search for it sees of a cube, where turns lead, and the search.
ghost use Rattle.std.specs.Prelude.{◌≡◌, ◌≤◌, IfSome, length};
ghost use Rattle.std.specs.Option.{option_map};
ghost use Rattle.scr_notation.specs.declared.event.Event.TheVariants.{C333};
ghost use Rattle.scr_notation.specs.Written.{numbered_word};
ghost use Rattle.scr_cube.specs.Cube333.{IsCube};
ghost use Rattle.scr_twophase.specs.TwoParts.{two_parts};

use crate::second::SecondPart;
use crate::tables::PruneTables;
use scr_coord::{PlaceSet, Twists, places_of};
use scr_cube::{Cube, corner_turns, edge_turns};
use scr_notation::{Event, NumberedWord};
use scr_orbit::pick_into;
use scr_outside::NoMemory;
use scr_positions::MoveTable;
use scr_rank::{Choose, PermRank, TwistRank};
use scr_search::{BLOCK, Extent, Part, PartPosition, Search, SearchTables, TurnSet, Word};
use scr_stages::{
    ALL_TURNS, MIDDLE_EDGES, OUTER_EDGES, block_number, corners_turned, edges_turned,
};
use scr_table::TableName;
use std::alloc::Global;

/// The quarter turns of R, F, L and B.
const SIDE_QUARTERS: TurnSet = TurnSet { bits: 0x2_d168 };

/// All turns: behind a turn those of its face are left out, and behind one of D, L or B those of the opposite face too.
/// Flips, twists, and sets of the places of the edges of the middle layer.
static FIRST_EXTENT: Extent = Extent {
    turns: 18,
    most: 12,
    numbers: [0, 1, 2, 3, 4, 5, 6, 7, 8, 9, 10, 11, 12, 13, 14, 15, 16, 17],
    backs: [2, 1, 0, 5, 4, 3, 8, 7, 6, 11, 10, 9, 14, 13, 12, 17, 16, 15],
    behind: [
        0x3_fff8, 0x3_ffc7, 0x3_fe3f, 0x3_f1f8, 0x3_8fc7, 0x0_7e3f, 0x3_ffff,
    ],
    last: SIDE_QUARTERS,
    ones: 2048,
    others: 2187,
    middles: 495,
    end: 494 * BLOCK,
    middle_first: false,
    one_table: TableName::FlipSlice,
    other_table: TableName::TwistSlice,
    bound: 12,
};

/// The first part: all cubes, by all turns, to the dominoes. What a word of it gives is what its second part makes of
/// it.
#[derive(Clone, Copy)]
pub(crate) struct FirstPart;

impl Part for FirstPart {
    ghost use Rattle.scr_twophase.specs.declared.first.TheConstants.{FIRST_EXTENT};
    ghost use Rattle.scr_twophase.specs.BothParts.{first_views};
    ghost use Rattle.scr_twophase.specs.TwoParts.{joined};
    ghost use Rattle.std.proofs.Common.{lit≤};

    type Rest = SearchTables<SecondPart>;

    ghost views = { first_views };

    ghost extent = { FIRST_EXTENT };

    ghost gives = { joined };

    #[inline]
    fn extent() -> &'static Extent {
        &FIRST_EXTENT
    }

    fn one_moves(alloc: Global) -> Result<MoveTable, NoMemory> {
        MoveTable::build(alloc, &Twists::<12, 2>::new(&edges_turned(&ALL_TURNS)[..]))
    }

    fn other_moves(alloc: Global) -> Result<MoveTable, NoMemory> {
        MoveTable::build(alloc, &Twists::<8, 3>::new(&corners_turned(&ALL_TURNS)[..]))
    }

    fn middle_moves(alloc: Global) -> Result<MoveTable, NoMemory> {
        let edges = edges_turned(&ALL_TURNS);
        MoveTable::build(alloc, &PlaceSet::<12, 4>::new(&edges[..], MIDDLE_EDGES))
    }

    fn give(rest: &SearchTables<SecondPart>, cube: &Cube, word: &mut Word) -> bool {
        // Where its pieces stand in the domino to which the word leads.
        let mut corners = cube.corners();
        let mut edges = cube.edges();
        for turn in word.as_slice() {
            let number = usize::from(*turn);
            let (corners_before, edges_before) = (corners, edges);
            pick_into(
                &corners_before[..],
                &corner_turns()[number].places[..],
                &mut corners[..],
            );
            pick_into(
                &edges_before[..],
                &edge_turns()[number].places[..],
                &mut edges[..],
            );
        }
        let at = PartPosition {
            one: PermRank::<8>::rank(&corners) as u32,
            other: block_number(&OUTER_EDGES, &edges),
            middle: block_number(&MIDDLE_EDGES, &edges),
        };
        let second = Search {
            tables: rest,
            rest: &(),
            cube,
        };
        second.within(word, at, &mut 1)
    }

    ghost short = { lit≤ tt };
}

/// The word of the two parts of a cube: its first part, and the second that it gives.
pub(crate) fn parts_word(tables: &PruneTables, cube: &Cube, tries: u32) -> Option<NumberedWord>
    ensures parts { result ≡ option_map (numbered_word C333) (two_parts cube.now tries) }
    ensures few { IfSome result (λ word. length word.turns ≤ 22) }
    ensures valid { IsCube cube.now }
{
    let mut middle = [0; 4];
    places_of(&MIDDLE_EDGES[..], &cube.edges()[..], &mut middle[..]);
    let at = PartPosition {
        one: TwistRank::<12, 2>::rank(&cube.flips()) as u32,
        other: TwistRank::<8, 3>::rank(&cube.twists()) as u32,
        middle: Choose::<12, 4>::rank(&middle) as u32,
    };
    let mut word = Word::new();
    let mut left = tries;
    let parts = Search {
        tables: &tables.first,
        rest: &tables.second,
        cube,
    };
    if parts.within(&mut word, at, &mut left) {
        Some(NumberedWord::of(Event::C333, word.as_slice()))
    } else {
        None
    }
}
