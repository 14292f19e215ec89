//! What an object has at a key.

ghost use Rattle.std.specs.Prelude.{◌≡◌, option_map};
ghost use Rattle.json.specs.Value.{value_view, items_view};
ghost use Rattle.scr_wcif.specs.Fields.{text_at, list_at};

use json::Value;

/// The text that an object has at a key.
pub(crate) fn text_at<'a>(value: &Value<'a>, key: &str) -> Option<&'a str>
    ensures { option_map (λ text. text.now) result ≡ text_at key.now (value_view value.now) }
{
    value.get(key)?.as_str()
}

/// The list that an object has at a key.
pub(crate) fn list_at<'v, 'a>(value: &'v Value<'a>, key: &str) -> Option<&'v [Value<'a>]>
    ensures { option_map (λ list. items_view list.now) result ≡ list_at key.now (value_view value.now) }
{
    if let Value::Array(items) = value.get(key)? {
        Some(items)
    } else {
        None
    }
}
