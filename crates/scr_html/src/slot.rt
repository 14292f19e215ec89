//! A scramble with its label and its picture.

ghost use Rattle.std.specs.Prelude.{◌≡◌, [], ◌∷◌, OnOk, codes, string_bytes};
ghost use Rattle.scr_markup.specs.Tokens.{Adds, HasNoLineFeed};
ghost use Rattle.scr_html.specs.Pages.{told, picture_marks, slot_marks};

use crate::tokens::{begin, end, marked, plain, valid};
use crate::words::write_words;
use scr_drawing::draw;
use scr_layout::{Group, tag};
use scr_markup::open;
use scr_notation::Scramble;
use scr_picture::Picture;
use std::alloc::AllocError;

/// Adds a scramble of a group, behind its label and with its picture where pictures are asked for.
pub(crate) fn write_slot(
    page: &mut String,
    group: &Group<'_>,
    label: &str,
    scramble: &Scramble,
    pictures: bool,
) -> Result<(), AllocError>
    requires { HasNoLineFeed label.now }
    ensures { OnOk result
        (Adds (string_bytes page.old) (string_bytes page.new) (slot_marks pictures (label.now, scramble.now))) }
{
    open(page, "article", &[("class", "scramble")])?;
    write_label(page, group, label)?;
    write_words(page, scramble)?;
    write_picture(page, scramble, pictures)?;
    end(page, "article")?;
    Ok(())
}

/// Adds a label, and below it which scramble this is, since scrambles are cut apart.
fn write_label(page: &mut String, group: &Group<'_>, label: &str) -> Result<(), AllocError>
    requires { HasNoLineFeed label.now }
    ensures { OnOk result
        (Adds (string_bytes page.old) (string_bytes page.new) (told (codes "label") label.now ∷ [])) }
{
    begin(page, "header")?;
    marked(page, "b", "label", label)?;
    plain(page, "small", group.event().name())?;
    valid(group);
    let text = tag(group);
    plain(page, "small", text.as_str())?;
    end(page, "header")?;
    Ok(())
}

/// Adds the picture of a scramble where pictures are asked for.
fn write_picture(page: &mut String, scramble: &Scramble, pictures: bool) -> Result<(), AllocError>
    ensures { OnOk result
        (Adds (string_bytes page.old) (string_bytes page.new) (picture_marks pictures scramble.now)) }
{
    if !pictures {
        return Ok(());
    }
    match Picture::of(scramble) {
        None => Ok(()),
        Some(picture) => draw(page, scramble.event(), &picture),
    }
}
