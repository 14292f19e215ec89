//! How drawings look: sizes, colours, and what lies under their parts.
//!
//! Where pages are printed in black and white, colours are told apart by how dark they are, and where two come near by
//! marks: of a cube green has a black dot and blue a white one.

/// A colour: how a part is painted, how the mark in it goes on from its place, if it has one, and how that is painted.
#[derive(Clone, Copy)]
pub(crate) struct Ink(
    pub(crate) &'static str,
    pub(crate) &'static str,
    pub(crate) &'static str,
);

/// An element that each drawing of a kind has: its name, its attributes, and its text.
#[derive(Clone, Copy)]
pub(crate) struct Element(
    pub(crate) &'static str,
    pub(crate) &'static [(&'static str, &'static str)],
    pub(crate) &'static str,
);

/// The looks of a kind of drawings.
#[derive(Clone, Copy)]
pub(crate) struct Style {
    /// The room that it takes, in its own units.
    pub(crate) view_box: &'static str,
    /// How wide that is on paper.
    pub(crate) width: &'static str,
    /// How wide its lines are.
    pub(crate) line: &'static str,
    /// How wide the lines of marks are.
    pub(crate) mark_line: &'static str,
    /// Whether parts are lines, else areas.
    pub(crate) is_lines: bool,
    /// What lies under its parts.
    pub(crate) under: &'static [Element],
    /// Its colours, by their numbers.
    pub(crate) inks: &'static [Ink],
}

/// Without a mark.
const NONE: &str = "";

/// A dot.
const DOT: &str = "h0";

const BLACK: &str = "#000";

const WHITE: &str = "#fff";

const YELLOW: &str = "#ffe135";

const ORANGE: &str = "#ff9212";

const GREEN: &str = "#1fb04f";

const RED: &str = "#cf1126";

const BLUE: &str = "#0b33a0";

/// The colours of a cube: of the faces U R F D L B, and of lines.
const CUBE: &[Ink] = &[
    Ink(WHITE, NONE, BLACK),
    Ink(RED, NONE, BLACK),
    Ink(GREEN, DOT, BLACK),
    Ink(YELLOW, NONE, BLACK),
    Ink(ORANGE, NONE, BLACK),
    Ink(BLUE, DOT, WHITE),
    Ink(BLACK, NONE, BLACK),
];

/// Those of a 7x7x7, where green has no mark, so that a drawing stays below 4 KB.
const CUBE_WITH_ONE_MARK: &[Ink] = &[
    Ink(WHITE, NONE, BLACK),
    Ink(RED, NONE, BLACK),
    Ink(GREEN, NONE, BLACK),
    Ink(YELLOW, NONE, BLACK),
    Ink(ORANGE, NONE, BLACK),
    Ink(BLUE, DOT, WHITE),
];

/// The net of a cube: its room, its width on paper, how wide a sticker and its mark are, the black faces under them,
/// and its colours.
macro_rules! net {
    ($view_box:expr, $width:expr, $sticker:expr, $mark:expr, $faces:expr, $inks:expr) => {
        Style {
            view_box: $view_box,
            width: $width,
            line: $sticker,
            mark_line: $mark,
            is_lines: true,
            under: &[Element(
                "path",
                &[("fill", BLACK), ("stroke", "none"), ("d", $faces)],
                "",
            )],
            inks: $inks,
        }
    };
}

/// A 2x2x2.
pub(crate) static CUBE_2: Style = net!(
    "0 0 170 127",
    "34mm",
    "18",
    "5",
    "M44 1h39v39h-39zM87 44h39v39h-39zM44 44h39v39h-39zM44 87h39v39h-39zM1 44h39v39h-39zM130 44h39v39h-39z",
    CUBE
);

/// A 3x3x3.
pub(crate) static CUBE_3: Style = net!(
    "0 0 174 130",
    "34mm",
    "12",
    "4",
    "M45 1h40v40h-40zM89 45h40v40h-40zM45 45h40v40h-40zM45 89h40v40h-40zM1 45h40v40h-40zM133 45h40v40h-40z",
    CUBE
);

/// A 5x5x5.
pub(crate) static CUBE_5: Style = net!(
    "0 0 198 148",
    "42mm",
    "8",
    "3",
    "M51 1h46v46h-46zM101 51h46v46h-46zM51 51h46v46h-46zM51 101h46v46h-46zM1 51h46v46h-46zM151 51h46v46h-46z",
    CUBE
);

/// A 6x6x6.
pub(crate) static CUBE_6: Style = net!(
    "0 0 186 139",
    "46mm",
    "6",
    "2.5",
    "M48 1h43v43h-43zM95 48h43v43h-43zM48 48h43v43h-43zM48 95h43v43h-43zM1 48h43v43h-43zM142 48h43v43h-43z",
    CUBE
);

/// A 7x7x7.
pub(crate) static CUBE_7: Style = net!(
    "0 0 214 160",
    "52mm",
    "6",
    "2.5",
    "M55 1h50v50h-50zM109 55h50v50h-50zM55 55h50v50h-50zM55 109h50v50h-50zM1 55h50v50h-50zM163 55h50v50h-50z",
    CUBE_WITH_ONE_MARK
);

/// A Skewb.
pub(crate) static SKEWB: Style = Style {
    view_box: "0 0 158 118",
    width: "34mm",
    line: "1",
    mark_line: "5",
    is_lines: false,
    under: &[],
    inks: CUBE,
};

/// A Pyraminx. Its faces are F R L D.
pub(crate) static PYRAMINX: Style = Style {
    view_box: "0 0 146 123",
    width: "36mm",
    line: "1",
    mark_line: "5",
    is_lines: false,
    under: &[],
    inks: &[
        Ink(GREEN, DOT, BLACK),
        Ink(BLUE, DOT, WHITE),
        Ink(RED, NONE, BLACK),
        Ink(YELLOW, NONE, BLACK),
    ],
};

/// A text beside what it names, in letters of a size.
macro_rules! label {
    ($x:expr, $y:expr, $size:expr, $text:expr) => {
        Element(
            "text",
            &[
                ("x", $x),
                ("y", $y),
                ("fill", BLACK),
                ("stroke", "none"),
                ("font-size", $size),
                ("font-family", "sans-serif"),
            ],
            $text,
        )
    };
}

const PLUS: &str = "m-2 0h4m-2-2v4";

const DASH: &str = "m-2 0h4";

const BAR: &str = "m0-2v4";

/// A Megaminx. Its faces are U F R BR BL L D B DBR DR DL DBL.
pub(crate) static MEGAMINX: Style = Style {
    view_box: "0 0 251 129",
    width: "62mm",
    line: "1",
    mark_line: "1.2",
    is_lines: false,
    under: &[
        label!("60", "24", "9", "U"),
        label!("86", "125", "9", "F"),
        label!("184", "115", "9", "D"),
        label!("213", "18", "9", "B"),
    ],
    inks: &[
        Ink(WHITE, NONE, BLACK),
        Ink("#35b765", PLUS, BLACK),
        Ink(RED, DASH, WHITE),
        Ink(BLUE, BAR, WHITE),
        Ink("#ffd500", BAR, BLACK),
        Ink("#9a55dd", PLUS, WHITE),
        Ink("#b9b9b9", "m-2-2l4 4m0-4l-4 4", BLACK),
        Ink("#9be22d", DASH, BLACK),
        Ink("#ff9ed8", "m-2 2l4-4", BLACK),
        Ink("#ffffc4", "m-1-1h2v2h-2z", BLACK),
        Ink("#86d8ff", NONE, BLACK),
        Ink("#ff8f2e", "m-2-2l4 4", BLACK),
    ],
};

/// A Square-1.
pub(crate) static SQUARE1: Style = Style {
    view_box: "0 0 232 134",
    width: "50mm",
    line: "1",
    mark_line: "4",
    is_lines: false,
    under: &[],
    inks: CUBE,
};

/// The dials of a Clock, 38 from one to the next.
const DIALS: &str = "\
    M5 21a16 16 0 1 1 32 0a16 16 0 1 1-32 0M43 21a16 16 0 1 1 32 0a16 16 0 1 1-32 0\
    M81 21a16 16 0 1 1 32 0a16 16 0 1 1-32 0M5 59a16 16 0 1 1 32 0a16 16 0 1 1-32 0\
    M43 59a16 16 0 1 1 32 0a16 16 0 1 1-32 0M81 59a16 16 0 1 1 32 0a16 16 0 1 1-32 0\
    M5 97a16 16 0 1 1 32 0a16 16 0 1 1-32 0M43 97a16 16 0 1 1 32 0a16 16 0 1 1-32 0\
    M81 97a16 16 0 1 1 32 0a16 16 0 1 1-32 0M129 21a16 16 0 1 1 32 0a16 16 0 1 1-32 0\
    M167 21a16 16 0 1 1 32 0a16 16 0 1 1-32 0M205 21a16 16 0 1 1 32 0a16 16 0 1 1-32 0\
    M129 59a16 16 0 1 1 32 0a16 16 0 1 1-32 0M167 59a16 16 0 1 1 32 0a16 16 0 1 1-32 0\
    M205 59a16 16 0 1 1 32 0a16 16 0 1 1-32 0M129 97a16 16 0 1 1 32 0a16 16 0 1 1-32 0\
    M167 97a16 16 0 1 1 32 0a16 16 0 1 1-32 0M205 97a16 16 0 1 1 32 0a16 16 0 1 1-32 0";

/// Lines at their twelves.
const TWELVES: &str = "\
    M21 4v5M59 4v5M97 4v5M21 42v5M59 42v5M97 42v5M21 80v5M59 80v5M97 80v5\
    M145 4v5M183 4v5M221 4v5M145 42v5M183 42v5M221 42v5M145 80v5M183 80v5M221 80v5";

/// A side of a Clock.
macro_rules! side {
    ($x:expr, $paint:expr) => {
        Element(
            "rect",
            &[
                ("x", $x),
                ("y", "1"),
                ("width", "116"),
                ("height", "116"),
                ("rx", "24"),
                ("fill", $paint),
            ],
            "",
        )
    };
}

/// A Clock: its two sides, each named by when it is in front, its dials with a line at each hour, and a longer one at
/// twelve.
pub(crate) static CLOCK: Style = Style {
    view_box: "0 0 242 136",
    width: "50mm",
    line: "2",
    mark_line: "7",
    is_lines: false,
    under: &[
        side!("1", "#dfe6f5"),
        side!("125", "#2f3a52"),
        label!("9", "132", "13", "in front at first"),
        label!("131", "132", "13", "in front after y2"),
        Element(
            "path",
            &[
                ("fill", WHITE),
                ("stroke-width", "4"),
                ("stroke-dasharray", "1 7.378"),
                ("stroke-dashoffset", ".5"),
                ("d", DIALS),
            ],
            "",
        ),
        Element("path", &[("stroke-width", "2.5"), ("d", TWELVES)], ""),
    ],
    inks: &[Ink(BLACK, DOT, BLACK)],
};
