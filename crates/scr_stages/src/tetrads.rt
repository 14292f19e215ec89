//! The corners of a 3x3x3 by tetrads. Each two corners of a tetrad are at one face together, which is their axis.
ghost use Rattle.std.specs.Prelude.{◌≡◌, ◌<◌, ◌++◌, All, slice_index};
ghost use Rattle.scr_stages.specs.Tetrads.{second_tetrad, axes_of, second_with};

/// Two corners of a tetrad are at one face together. Corners: 0 URF, 1 UFL, 2 ULB, 3 UBR, 4 DFR, 5 DLF, 6 DBL, 7 DRB.
pub(crate) const FIRST_TETRAD: [u8; 4] = [0, 2, 5, 7];

/// The other corners.
pub(crate) const SECOND_TETRAD: [u8; 4] = [1, 3, 4, 6];

/// The axis of the first face at which two corners are: 0 up and down, 1 right and left, 2 front and back.
static AXES: [[u8; 8]; 8] = [
    [0, 0, 0, 0, 1, 2, 0, 1],
    [0, 0, 0, 0, 2, 2, 1, 0],
    [0, 0, 0, 0, 0, 1, 1, 2],
    [0, 0, 0, 0, 1, 0, 2, 2],
    [2, 2, 0, 1, 0, 0, 0, 0],
    [2, 1, 1, 0, 0, 0, 0, 0],
    [0, 1, 2, 2, 0, 0, 0, 0],
    [1, 0, 2, 1, 0, 0, 0, 0],
];

/// For each corner of the second tetrad, the one that has each axis with it.
static ACROSS: [[u8; 3]; 4] = [[3, 6, 4], [1, 4, 6], [6, 3, 1], [4, 1, 3]];

/// For each relation, the second tetrad beside the first one in order.
pub(crate) static RELATED: [[u8; 4]; 6] = [
    [1, 3, 4, 6],
    [1, 3, 6, 4],
    [1, 4, 3, 6],
    [1, 6, 3, 4],
    [1, 4, 6, 3],
    [1, 6, 4, 3],
];

/// The axes of the first of four corners and each of the others.
#[tactic(auto, using(crate::proofs::Cited::axes_of))]
pub(crate) fn axes_of(corners: &[u8; 4]) -> [u8; 3]
    requires { All (λ corner. corner < 8) corners.now }
    ensures { result ≡ axes_of corners.now }
{
    let [first, second, third, fourth] = *corners;
    let axes = &AXES[usize::from(first)];
    [
        axes[usize::from(second)],
        axes[usize::from(third)],
        axes[usize::from(fourth)],
    ]
}

/// The corners of the second tetrad of which the one at a place comes first, and whose axes are these.
#[tactic(auto, using(crate::proofs::Cited::second_with))]
pub(crate) fn second_with(place: usize, axes: &[u8; 3]) -> [u8; 4]
    requires place { place < 4 }
    requires axes { All (λ axis. axis < 3) axes.now }
    ensures { result ≡ second_with (slice_index second_tetrad place) axes.now }
{
    let across = &ACROSS[place];
    [
        SECOND_TETRAD[place],
        across[usize::from(axes[0])],
        across[usize::from(axes[1])],
        across[usize::from(axes[2])],
    ]
}

/// Four numbers and four more.
pub(crate) fn joined(first: &[u8; 4], second: &[u8; 4]) -> [u8; 8]
    ensures { result ≡ first.now ++ second.now }
{
    let [a, b, c, d] = *first;
    let [e, f, g, h] = *second;
    [a, b, c, d, e, f, g, h]
}
