//! Outlines, and the parts of a drawing that have them.

ghost use Rattle.std.specs.Prelude.{◌≡◌, true};
ghost use Rattle.std.specs.List.{list_all};
ghost use Rattle.scr_drawing.specs.Outlines.{is_steps};

/// An outline within a box: where it begins, to the right and down, and how it goes on, in the relative commands of an
/// SVG path; then the place within it where a mark stands.
#[derive(Clone, Copy)]
pub(crate) struct Shape(
    pub(crate) u8,
    pub(crate) u8,
    pub(crate) &'static str,
    pub(crate) u8,
    pub(crate) u8,
);

/// A part of a drawing. No place lies beyond 255.
#[derive(Clone, Copy)]
pub(crate) struct Part {
    /// The number of its colour.
    pub(crate) colour: u8,
    /// Where its outline begins.
    pub(crate) x: u8,
    /// The same, down.
    pub(crate) y: u8,
    /// How its outline goes on.
    pub(crate) steps: &'static str,
    /// Where its mark stands.
    pub(crate) mark_x: u8,
    /// The same, down.
    pub(crate) mark_y: u8,
    ghost short: { is_steps steps.now ≡ true },
}

/// The shape with this number, in a box that begins at an origin.
pub(crate) fn part_of(
    shapes: &'static [Shape],
    number: usize,
    origin: (u8, u8),
    colour: u8,
) -> Option<Part>
    requires { list_all (λ shape. is_steps shape.2.now) shapes.now ≡ true }
{
    let shape = shapes.get(number)?;
    let (x, y) = origin;
    Some(Part {
        colour,
        x: x.saturating_add(shape.0),
        y: y.saturating_add(shape.1),
        steps: shape.2,
        mark_x: x.saturating_add(shape.3),
        mark_y: y.saturating_add(shape.4),
    })
}
