//! The drawing of a picture.

ghost use Rattle.std.specs.Prelude.{◌≡◌, true, [], ◌∷◌, IfSome, OnOk, string_bytes};
ghost use Rattle.std.specs.List.{list_all};
ghost use Rattle.scr_markup.specs.Tokens.{HasNoLineFeed, Adds};
ghost use Rattle.scr_drawing.specs.Told.{picture_mark};
ghost use Rattle.scr_drawing.specs.Outlines.{is_steps};
ghost use Rattle.scr_drawing.specs.Styles.{is_free, is_ink, is_style};

use crate::letters::Letters;
use crate::path::{PathText, push_outline};
use crate::plan::Plan;
use crate::style::{Element, Ink, Style};
use arrayvec::ArrayString;
use scr_markup::{close, leaf, open};
use scr_notation::Event;
use scr_picture::Picture;
use std::alloc::AllocError;

/// Adds the drawing of the puzzle of an event: an inline SVG of class `picture` with the attributes `data-event`, the
/// event's id, and `data-letters`, the picture's letters. It has a width in millimetres, which a style may change, and
/// needs nothing else of the page.
#[tactic(auto, using(crate::proofs::Free::adds_more))]
pub fn draw(page: &mut String, event: Event, picture: &Picture) -> Result<(), AllocError>
    ensures { OnOk result
        (Adds (string_bytes page.old) (string_bytes page.new) (picture_mark event picture.now ∷ [])) }
{
    let letters = picture.letters();
    let plan = Plan::of(event);
    let style = plan.style();
    begin(page, event, letters, style)?;
    add_under(page, style.under)?;
    add_parts(page, plan, &plan.letters(letters), style)?;
    close(page, "svg")
}

/// Begins the drawing.
fn begin(page: &mut String, event: Event, letters: &str, style: &Style) -> Result<(), AllocError>
    requires letters { HasNoLineFeed letters.now }
    requires style { is_style style.now ≡ true }
    ensures { OnOk result
        (Adds (string_bytes page.old) (string_bytes page.new) (picture_mark event letters.now ∷ [])) }
{
    open(
        page,
        "svg",
        &[
            ("class", "picture"),
            ("data-event", event.id()),
            ("data-letters", letters),
            ("viewBox", style.view_box),
            ("width", style.width),
            ("fill", "none"),
            ("stroke", "#000"),
            ("stroke-width", style.line),
            ("stroke-linejoin", "round"),
        ],
    )
}

/// Adds what lies under the parts.
#[tactic(auto, using(crate::proofs::Free::adds_more))]
fn add_under(page: &mut String, under: &[Element]) -> Result<(), AllocError>
    requires { list_all is_free under.now ≡ true }
    ensures { OnOk result (Adds (string_bytes page.old) (string_bytes page.new) []) }
{
    for element in under {
        add_element(page, element)?;
    }
    Ok(())
}

/// Adds an element that tells nothing.
fn add_element(page: &mut String, element: &Element) -> Result<(), AllocError>
    requires { is_free element.now ≡ true }
    ensures { OnOk result (Adds (string_bytes page.old) (string_bytes page.new) []) }
{
    leaf(page, element.0, element.1, element.2)
}

/// Adds the parts, colour by colour.
#[tactic(auto, using(crate::proofs::Free::adds_more))]
fn add_parts(
    page: &mut String,
    plan: Plan,
    letters: &Letters,
    style: &Style,
) -> Result<(), AllocError>
    requires { is_style style.now ≡ true }
    ensures { OnOk result (Adds (string_bytes page.old) (string_bytes page.new) []) }
{
    let mut text = ArrayString::new();
    for (colour, ink) in style.inks.iter().enumerate() {
        add_colour(page, plan, letters, style, colour, ink, &mut text)?;
    }
    Ok(())
}

/// Adds the parts of a colour and their marks, if there are any, by means of a text.
#[tactic(auto, using(crate::proofs::Free::adds_more))]
fn add_colour(
    page: &mut String,
    plan: Plan,
    letters: &Letters,
    style: &Style,
    colour: usize,
    ink: &Ink,
    text: &mut PathText,
) -> Result<(), AllocError>
    requires style { is_style style.now ≡ true }
    requires ink { is_ink ink.now ≡ true }
    ensures { OnOk result (Adds (string_bytes page.old) (string_bytes page.new) []) }
{
    write_parts(text, plan, letters, colour, None);
    if text.is_empty() {
        return Ok(());
    }
    add_path(page, style, ink, text.as_str())?;
    if ink.1.is_empty() {
        return Ok(());
    }
    write_parts(text, plan, letters, colour, Some(ink.1));
    leaf(
        page,
        "path",
        &[
            ("stroke", ink.2),
            ("stroke-width", style.mark_line),
            ("stroke-linecap", "round"),
            ("d", text.as_str()),
        ],
        "",
    )
}

/// Writes the parts of a colour into an emptied text: their outlines, or a mark in each.
fn write_parts(
    text: &mut PathText,
    plan: Plan,
    letters: &Letters,
    colour: usize,
    mark: Option<&str>,
)
    requires { IfSome mark (λ mark. is_steps mark.now ≡ true) }
    ensures { HasNoLineFeed text.new.bytes }
{
    text.clear();
    for number in 0..plan.count(letters) {
        if let Some(part) = plan.part(number, letters)
            && part.colour as usize == colour
        {
            match mark {
                None => push_outline(text, part.x, part.y, part.steps),
                Some(mark) => push_outline(text, part.mark_x, part.mark_y, mark),
            }
        }
    }
}

/// Adds the path of outlines of a colour.
fn add_path(page: &mut String, style: &Style, ink: &Ink, outlines: &str) -> Result<(), AllocError>
    requires ink { is_ink ink.now ≡ true }
    requires outlines { HasNoLineFeed outlines.now }
    ensures { OnOk result (Adds (string_bytes page.old) (string_bytes page.new) []) }
{
    if style.is_lines {
        leaf(page, "path", &[("stroke", ink.0), ("d", outlines)], "")
    } else {
        leaf(page, "path", &[("fill", ink.0), ("d", outlines)], "")
    }
}
