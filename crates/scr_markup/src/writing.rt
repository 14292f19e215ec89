//! Tokens as text.

ghost use Rattle.std.specs.Prelude.{◌≡◌, ℕ, ◌<◌, ◌≤◌, List, [], ◌∷◌, ◌++◌, OnOk, option_to_list, string_bytes, length, take, slice_index};
ghost use Rattle.scr_markup.specs.Tokens.{IsToken, Open, Leaf, Close, escaped_byte, escaped, attribute_text, attributes_text, head_text, end_text, text_of_tokens, mark_of, Adds};
ghost use Rattle.scr_markup.specs.Given.{attribute_of, attributes_of};

use crate::escaping::push_escaped;
use std::alloc::AllocError;

/// Begins an element: adds the line of its name and attributes, which are keys with their values.
pub fn open(page: &mut String, name: &str, attributes: &[(&str, &str)]) -> Result<(), AllocError>
    requires { IsToken (Open name.now (attributes_of attributes.now)) }
    ensures written { let token = Open name.now (attributes_of attributes.now) in
        OnOk result (string_bytes page.new ≡ string_bytes page.old ++ text_of_tokens (token ∷ [])) }
    ensures adds { let token = Open name.now (attributes_of attributes.now) in
        OnOk result (Adds (string_bytes page.old) (string_bytes page.new) (option_to_list (mark_of token))) }
{
    push_head(page, name, attributes)?;
    page.push_str("\n")?;
    Ok(())
}

/// Adds an element that holds a text alone, in one line.
pub fn leaf(
    page: &mut String,
    name: &str,
    attributes: &[(&str, &str)],
    text: &str,
) -> Result<(), AllocError>
    requires { IsToken (Leaf name.now (attributes_of attributes.now) text.now) }
    ensures written { let token = Leaf name.now (attributes_of attributes.now) text.now in
        OnOk result (string_bytes page.new ≡ string_bytes page.old ++ text_of_tokens (token ∷ [])) }
    ensures adds { let token = Leaf name.now (attributes_of attributes.now) text.now in
        OnOk result (Adds (string_bytes page.old) (string_bytes page.new) (option_to_list (mark_of token))) }
{
    push_head(page, name, attributes)?;
    push_escaped(page, text)?;
    push_end(page, name)?;
    page.push_str("\n")?;
    Ok(())
}

/// Ends an element of this name.
pub fn close(page: &mut String, name: &str) -> Result<(), AllocError>
    requires { IsToken (Close name.now) }
    ensures written { OnOk result
        (string_bytes page.new ≡ string_bytes page.old ++ text_of_tokens (Close name.now ∷ [])) }
    ensures adds { OnOk result (Adds (string_bytes page.old) (string_bytes page.new) []) }
{
    push_end(page, name)?;
    page.push_str("\n")?;
    Ok(())
}

fn push_head(page: &mut String, name: &str, attributes: &[(&str, &str)]) -> Result<(), AllocError>
    ensures { OnOk result
        (string_bytes page.new ≡ string_bytes page.old ++ head_text name.now (attributes_of attributes.now)) }
{
    page.push_str("<")?;
    page.push_str(name)?;
    push_attributes(page, attributes)?;
    page.push_str(">")
}

/// Adds these attributes. It calls itself once for each.
fn push_attributes(page: &mut String, attributes: &[(&str, &str)]) -> Result<(), AllocError>
    ensures { OnOk result
        (string_bytes page.new ≡ string_bytes page.old ++ attributes_text (attributes_of attributes.now)) }
{
    match attributes {
        [] => Ok(()),
        [first, rest @ ..] => {
            push_attribute(page, first.0, first.1)?;
            push_attributes(page, rest)
        }
    }
}

fn push_attribute(page: &mut String, key: &str, value: &str) -> Result<(), AllocError>
    ensures { OnOk result
        (string_bytes page.new ≡ string_bytes page.old ++ attribute_text (record { key = key.now; value = value.now })) }
{
    page.push_str(" ")?;
    page.push_str(key)?;
    page.push_str("=\"")?;
    push_escaped(page, value)?;
    page.push_str("\"")
}

fn push_end(page: &mut String, name: &str) -> Result<(), AllocError>
    ensures { OnOk result (string_bytes page.new ≡ string_bytes page.old ++ end_text name.now) }
{
    page.push_str("</")?;
    page.push_str(name)?;
    page.push_str(">")
}
