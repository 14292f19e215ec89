//! The names of the tables.

ghost use Rattle.std.specs.Prelude.{◌≡◌};
ghost use Rattle.scr_table.specs.Names.{name_text};

/// A table of the product. Those of one event stand in the order in which they are built.
#[derive(Clone, Copy, Debug, PartialEq, Eq)]
pub enum TableName {
    /// The 2x2x2's states.
    Corners,
    /// A cube's flips.
    Flips,
    /// A cube's twists, and the set of places of the edges 8 to 11.
    Slice,
    /// A cube's tetrads of corners, beside the edges' sets of places.
    Tetrads,
    /// A cube that half turns solve.
    Halves,
    /// A cube's flips, and the set of places of the edges 8 to 11.
    FlipSlice,
    /// A cube's twists and that set, over all turns.
    TwistSlice,
    /// A cube's corner list, and the edges 8 to 11 in their layer.
    CornerSlice,
    /// A cube's other edges, and the edges 8 to 11 in their layer.
    EdgeSlice,
    /// The Pyraminx's states, but for the tips.
    Pyramid,
    /// The Skewb's states.
    Skewb,
    /// The Square-1's shapes.
    Shapes,
    /// The Square-1's pairs of pieces.
    Pairings,
    /// The Square-1's states whose pairs are those of the solved one.
    Square,
}

impl TableName {
    /// The name that is printed.
    pub fn text(self) -> &'static str
        ensures { result.now ≡ name_text self }
    {
        match self {
            TableName::Corners => "corners",
            TableName::Flips => "flips",
            TableName::Slice => "slice",
            TableName::Tetrads => "tetrads",
            TableName::Halves => "halves",
            TableName::FlipSlice => "flipslice",
            TableName::TwistSlice => "twistslice",
            TableName::CornerSlice => "cornerslice",
            TableName::EdgeSlice => "edgeslice",
            TableName::Pyramid => "pyramid",
            TableName::Skewb => "skewb",
            TableName::Shapes => "shapes",
            TableName::Pairings => "pairings",
            TableName::Square => "square",
        }
    }
}
