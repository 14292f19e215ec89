//! What pages look like, and their pieces.

ghost use Rattle.std.specs.Prelude.{◌≡◌, [], OnOk, string_bytes};
ghost use Rattle.scr_layout.specs.Shown.{HasNoControl};
ghost use Rattle.scr_pages.specs.Pages.{AreBegun, pages_end};
ghost use Rattle.scr_pages.specs.Writing.{look_of, GoesOn};

use scr_html::{write_group, write_head, write_tail};
use scr_layout::Group;
use scr_text_pages::write_pages;
use std::alloc::AllocError;

/// What pages look like.
#[derive(Clone, Copy, Debug)]
pub(crate) struct Look<'n> {
    /// Pages as HTML, else as text.
    pub(crate) html: bool,
    /// Whether there are pictures.
    pub(crate) pictures: bool,
    /// The competition's name in one line; empty for none.
    pub(crate) name: &'n str,
}

/// Makes what stands before the first page.
pub(crate) fn begin_pages(page: &mut String, look: &Look<'_>) -> Result<(), AllocError>
    requires name { HasNoControl look.now.name.now }
    requires empty { string_bytes page.old ≡ [] }
    ensures { OnOk result (AreBegun (look_of look.now) [] (string_bytes page.new)) }
{
    if look.html {
        write_head(page, look.name)?;
    }
    Ok(())
}

/// Makes the pages of a group, which may be the first of all.
pub(crate) fn group_pages(
    page: &mut String,
    look: &Look<'_>,
    first: bool,
    group: &Group<'_>,
) -> Result<(), AllocError>
    requires name { HasNoControl look.now.name.now }
    requires empty { string_bytes page.old ≡ [] }
    ensures { OnOk result (GoesOn (look_of look.now) first group.now (string_bytes page.new)) }
{
    if look.html {
        write_group(page, group, look.name, look.pictures)?;
        return Ok(());
    }
    if !first {
        page.push_str("\u{c}")?;
    }
    write_pages(page, group, look.name, look.pictures)?;
    Ok(())
}

/// Makes what stands behind the last page.
pub(crate) fn end_pages(page: &mut String, look: &Look<'_>) -> Result<(), AllocError>
    requires { string_bytes page.old ≡ [] }
    ensures { OnOk result (string_bytes page.new ≡ pages_end (look_of look.now)) }
{
    if look.html {
        write_tail(page)?;
    }
    Ok(())
}
