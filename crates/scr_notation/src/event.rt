//! The events, and the puzzles that are scrambled for them.

ghost use Rattle.std.specs.Prelude.{◌≡◌, ◌≤◌, IfSome, Some, slice_get};
ghost use Rattle.scr_notation.specs.Event.{events, puzzle_row_of, id_of, name_of, puzzle_of, kind_of, per_group_of, minima_of, family_of, is_tested_by_table, net_side_of, event_of};
ghost use Rattle.scr_notation.specs.Kinds.{IsKind};
ghost use Rattle.scr_notation.specs.declared.event.Kind.TheVariants.{Faces, Axes};

/// An event (WCA Regulations, article 9), in the order of the events' numbers from 0.
#[derive(Clone, Copy, Debug, PartialEq, Eq)]
pub enum Event {
    /// 2x2x2 Cube.
    C222,
    /// 3x3x3 Cube.
    C333,
    /// 3x3x3 One-Handed.
    Oh333,
    /// 5x5x5 Cube.
    C555,
    /// 6x6x6 Cube.
    C666,
    /// 7x7x7 Cube.
    C777,
    /// Clock.
    Clock,
    /// Megaminx.
    Minx,
    /// Pyraminx.
    Pyram,
    /// Skewb.
    Skewb,
    /// Square-1.
    Sq1,
    /// 3x3x3 Blindfolded.
    Bf333,
    /// 3x3x3 Fewest Moves.
    Fm333,
}

/// What is scrambled for an event, and how. Events that have it in common have the same turns, states and scrambles,
/// and look alike.
#[derive(Clone, Copy, Debug, PartialEq, Eq)]
pub enum Puzzle {
    /// The 2x2x2.
    Cube222,
    /// The 3x3x3.
    Cube333,
    /// The 3x3x3 that wide turns at the end leave held in any of 24 ways.
    Held333,
    /// The 3x3x3 whose scrambles begin and end with R' U' F.
    Fewest333,
    /// The 5x5x5.
    Cube555,
    /// The 6x6x6.
    Cube666,
    /// The 7x7x7.
    Cube777,
    /// The Clock.
    Clock,
    /// The Megaminx.
    Megaminx,
    /// The Pyraminx.
    Pyraminx,
    /// The Skewb.
    Skewb,
    /// The Square-1.
    Square1,
}

/// A kind of puzzles, by the turns that they have.
#[derive(Clone, Copy, Debug, PartialEq, Eq)]
pub enum Kind {
    /// Turns of a cube's faces: at the near faces U R F of up to `near` layers, and at the far faces D L B of up to
    /// `far`.
    Faces { near: u8, far: u8 },
    /// Turns about four axes, and of the tips at them if there are any.
    Axes { tips: bool },
    /// Turns of a Square-1's two layers, and its twist.
    LayersAndTwist,
    /// Pin sets of a Clock, turned by hours, and `y2`.
    PinSets,
    /// Wide turns of a Megaminx.
    WideTurns,
}

/// How many turns from solved each state of a round is at least.
#[derive(Clone, Copy, Debug, PartialEq, Eq)]
pub struct Minima {
    /// Where the round doesn't say.
    pub usual: u8,
    /// The greatest that a round may set, at most 15; the least is 0.
    pub greatest: u8,
}

/// A family of events: those whose scrambles are found by the same tables, which are built and printed in this order.
#[derive(Clone, Copy, Debug, PartialEq, Eq)]
pub enum Family {
    /// The 2x2x2.
    Cube222,
    /// The 3x3x3.
    Cube333,
    /// The Pyraminx.
    Pyraminx,
    /// The Skewb.
    Skewb,
    /// The Square-1.
    Square1,
}

/// What the tables of events and of puzzles have of an event.
#[derive(Clone, Copy)]
pub struct EventRow {
    /// How lists and commands name it.
    pub id: &'static str,
    /// How a sheet names it.
    pub name: &'static str,
    /// What is scrambled for it.
    pub puzzle: Puzzle,
    /// How many scrambles a group has, without the two extra ones.
    pub per_group: u8,
    /// What its turns are.
    pub kind: Kind,
    /// The minima of its rounds; `None` for an event that is scrambled by random moves.
    pub minima: Option<Minima>,
    /// The family of its tables; `None` where its scrambles need no table.
    pub family: Option<Family>,
    /// Whether its states are tested by its table as they are drawn. (Those of others are tested by trying words.)
    pub tested_by_table: bool,
    /// How many layers the cube has whose net is shown, 2 to 7; `None` where none is.
    pub net_side: Option<u8>,
}

/// What the table of puzzles has of one.
#[derive(Clone, Copy)]
struct PuzzleRow {
    kind: Kind,
    minima: Option<Minima>,
    family: Option<Family>,
    tested_by_table: bool,
    net_side: Option<u8>,
}

/// The events, in the order of their numbers.
pub const EVENTS: [Event; 13] = [
    Event::C222,
    Event::C333,
    Event::Oh333,
    Event::C555,
    Event::C666,
    Event::C777,
    Event::Clock,
    Event::Minx,
    Event::Pyram,
    Event::Skewb,
    Event::Sq1,
    Event::Bf333,
    Event::Fm333,
];

impl Event {
    /// How lists and commands name it.
    pub fn id(self) -> &'static str
        ensures { result.now ≡ id_of self }
    {
        self.row().id
    }

    /// How a sheet names it.
    pub fn name(self) -> &'static str
        ensures { result.now ≡ name_of self }
    {
        self.row().name
    }

    /// What is scrambled for it.
    pub fn puzzle(self) -> Puzzle
        ensures { result ≡ puzzle_of self }
    {
        self.row().puzzle
    }

    /// What its turns are.
    pub fn kind(self) -> Kind
        ensures value { result ≡ kind_of self }
        ensures depths { IsKind result }
    {
        self.row().kind
    }

    /// How many scrambles a group has, without the two extra ones.
    pub fn per_group(self) -> u8
        ensures value { result ≡ per_group_of self }
        ensures few { result ≤ 5 }
    {
        self.row().per_group
    }

    /// The minima of its rounds; `None` for an event that is scrambled by random moves.
    pub fn minima(self) -> Option<Minima>
        ensures value { result ≡ minima_of self }
        ensures range { IfSome result (λ minima. (minima.usual ≤ minima.greatest) × (minima.greatest ≤ 15)) }
    {
        self.row().minima
    }

    /// The family of its tables; `None` where its scrambles need no table.
    pub fn family(self) -> Option<Family>
        ensures { result ≡ family_of self }
    {
        self.row().family
    }

    /// Whether its states are tested by its table as they are drawn.
    pub fn is_tested_by_table(self) -> bool
        ensures { result ≡ is_tested_by_table self }
    {
        self.row().tested_by_table
    }

    /// How many layers the cube has whose net is shown, 2 to 7; `None` where none is.
    pub fn net_side(self) -> Option<u8>
        ensures value { result ≡ net_side_of self }
        ensures range { IfSome result (λ side. (2 ≤ side) × (side ≤ 7)) }
    {
        self.row().net_side
    }

    /// Its number, which is its place among the events, from 0.
    pub fn number(self) -> u8
        ensures { slice_get events result ≡ Some self }
    {
        self as u8
    }

    /// The event that has this id; `None` exactly where no event has it.
    pub fn from_id(text: &str) -> Option<Event>
        ensures { result ≡ event_of text.now }
    {
        EVENTS.iter().copied().find(|event| event.id() == text)
    }

    /// What the tables have of it.
    pub fn row(self) -> EventRow
        ensures id { result.id.now ≡ id_of self }
        ensures name { result.name.now ≡ name_of self }
        ensures puzzle { result.puzzle ≡ puzzle_of self }
        ensures per_group { result.per_group ≡ per_group_of self }
        ensures few { result.per_group ≤ 5 }
        ensures kind { result.kind ≡ kind_of self }
        ensures depths { IsKind result.kind }
        ensures minima { result.minima ≡ minima_of self }
        ensures range { IfSome result.minima (λ minima. (minima.usual ≤ minima.greatest) × (minima.greatest ≤ 15)) }
        ensures family { result.family ≡ family_of self }
        ensures tested { result.tested_by_table ≡ is_tested_by_table self }
        ensures side { result.net_side ≡ net_side_of self }
        ensures sides { IfSome result.net_side (λ side. (2 ≤ side) × (side ≤ 7)) }
    {
        let (id, name, puzzle, per_group) = match self {
            Event::C222 => ("222", "2x2x2 Cube", Puzzle::Cube222, 5),
            Event::C333 => ("333", "3x3x3 Cube", Puzzle::Cube333, 5),
            Event::Oh333 => ("333oh", "3x3x3 One-Handed", Puzzle::Cube333, 5),
            Event::C555 => ("555", "5x5x5 Cube", Puzzle::Cube555, 5),
            Event::C666 => ("666", "6x6x6 Cube", Puzzle::Cube666, 3),
            Event::C777 => ("777", "7x7x7 Cube", Puzzle::Cube777, 3),
            Event::Clock => ("clock", "Clock", Puzzle::Clock, 5),
            Event::Minx => ("minx", "Megaminx", Puzzle::Megaminx, 5),
            Event::Pyram => ("pyram", "Pyraminx", Puzzle::Pyraminx, 5),
            Event::Skewb => ("skewb", "Skewb", Puzzle::Skewb, 5),
            Event::Sq1 => ("sq1", "Square-1", Puzzle::Square1, 5),
            Event::Bf333 => ("333bf", "3x3x3 Blindfolded", Puzzle::Held333, 3),
            Event::Fm333 => ("333fm", "3x3x3 Fewest Moves", Puzzle::Fewest333, 3),
        };
        let row = puzzle.row();
        EventRow {
            id,
            name,
            puzzle,
            per_group,
            kind: row.kind,
            minima: row.minima,
            family: row.family,
            tested_by_table: row.tested_by_table,
            net_side: row.net_side,
        }
    }
}

impl Puzzle {
    /// Its row in the table of puzzles.
    fn row(self) -> PuzzleRow
        ensures { result ≡ puzzle_row_of self }
    {
        let (kind, minima, family, tested_by_table, net_side) = match self {
            Puzzle::Cube222 => (
                faces(1, 0),
                up_to(11, 4),
                Some(Family::Cube222),
                true,
                Some(2),
            ),
            Puzzle::Cube333 => (
                faces(1, 1),
                up_to(5, 2),
                Some(Family::Cube333),
                false,
                Some(3),
            ),
            Puzzle::Held333 => (faces(2, 1), up_to(5, 2), Some(Family::Cube333), false, None),
            Puzzle::Fewest333 => (faces(1, 1), up_to(5, 2), Some(Family::Cube333), false, None),
            Puzzle::Cube555 => (faces(2, 2), None, None, false, Some(5)),
            Puzzle::Cube666 => (faces(3, 2), None, None, false, Some(6)),
            Puzzle::Cube777 => (faces(3, 3), None, None, false, Some(7)),
            Puzzle::Clock => (Kind::PinSets, up_to(3, 2), None, false, None),
            Puzzle::Megaminx => (Kind::WideTurns, None, None, false, None),
            Puzzle::Pyraminx => (axes(true), up_to(15, 6), Some(Family::Pyraminx), true, None),
            Puzzle::Skewb => (axes(false), up_to(11, 7), Some(Family::Skewb), true, None),
            Puzzle::Square1 => (
                Kind::LayersAndTwist,
                up_to(4, 2),
                Some(Family::Square1),
                false,
                None,
            ),
        };
        PuzzleRow {
            kind,
            minima,
            family,
            tested_by_table,
            net_side,
        }
    }
}

/// Turns of so many layers at the near and at the far faces.
fn faces(near: u8, far: u8) -> Kind
    ensures { result ≡ Faces near far }
{
    Kind::Faces { near, far }
}

/// Turns about axes, with tips or without.
fn axes(tips: bool) -> Kind
    ensures { result ≡ Axes tips }
{
    Kind::Axes { tips }
}

/// Minima up to the greatest, with the usual one.
fn up_to(greatest: u8, usual: u8) -> Option<Minima>
    ensures { result ≡ Some (record { usual = usual; greatest = greatest }) }
{
    Some(Minima { usual, greatest })
}
