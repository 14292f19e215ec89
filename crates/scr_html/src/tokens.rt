//! The tokens that pages are made of.

ghost use Rattle.std.specs.Prelude.{◌≡◌, true, [], ◌∷◌, OnOk, string_bytes};
ghost use Rattle.scr_markup.specs.Tokens.{Adds, is_name, HasNoLineFeed};
ghost use Rattle.scr_layout.specs.Group.{IsGroup};
ghost use Rattle.scr_html.specs.Pages.{told};

use scr_layout::Group;
use scr_markup::{close, leaf, open};
use std::alloc::AllocError;

/// Begins an element that promises nothing.
pub(crate) fn begin(page: &mut String, name: &str) -> Result<(), AllocError>
    requires { is_name name.now ≡ true }
    ensures { OnOk result (Adds (string_bytes page.old) (string_bytes page.new) []) }
{
    open(page, name, &[])
}

/// Adds an element with a text, which promises nothing.
pub(crate) fn plain(page: &mut String, name: &str, text: &str) -> Result<(), AllocError>
    requires name { is_name name.now ≡ true }
    requires text { HasNoLineFeed text.now }
    ensures { OnOk result (Adds (string_bytes page.old) (string_bytes page.new) []) }
{
    leaf(page, name, &[], text)
}

/// Adds an element of a class with a text.
pub(crate) fn marked(
    page: &mut String,
    name: &str,
    class: &str,
    text: &str,
) -> Result<(), AllocError>
    requires name { is_name name.now ≡ true }
    requires class { HasNoLineFeed class.now }
    requires text { HasNoLineFeed text.now }
    ensures { OnOk result (Adds (string_bytes page.old) (string_bytes page.new) (told class.now text.now ∷ [])) }
{
    leaf(page, name, &[("class", class)], text)
}

/// Ends an element.
pub(crate) fn end(page: &mut String, name: &str) -> Result<(), AllocError>
    requires { is_name name.now ≡ true }
    ensures { OnOk result (Adds (string_bytes page.old) (string_bytes page.new) []) }
{
    close(page, name)
}

/// A group is one of a sheet: a call that does nothing, and is there for what it proves.
pub(crate) fn valid(group: &Group<'_>)
    ensures { IsGroup group.now }
{
    let _event = group.event();
}
