//! The begin and the end of a document.

ghost use Rattle.std.specs.Prelude.{◌≡◌, true, [], ◌∷◌, ◌++◌, OnOk, string_bytes};
ghost use Rattle.scr_markup.specs.Tokens.{Adds, HasNoLineFeed};
ghost use Rattle.scr_layout.specs.Shown.{HasNoControl};
ghost use Rattle.scr_html.specs.Pages.{doctype, document_end, document_mark};
ghost use Rattle.scr_html.specs.Rules.{is_rule, are_rules};

use crate::tokens::{begin, end, marked, plain};
use scr_markup::{close, open};
use std::alloc::AllocError;

/// The style of a document. Pages have no margins that a browser could print in, and room at their own edges, at each
/// page that a long group takes. Sizes are those of the page (`crate::sizes`). The rules are such as weasyprint 57 knows,
/// too: it has no grid and no variable within `font`, and in a row of boxes it takes blocks alone.
const RULES: &[&str] = &[
    "@page { margin: 0; }",
    "* { box-sizing: border-box; margin: 0; padding: 0; }",
    "body { font: 10pt/13pt sans-serif; color: black; background: white; }",
    "section { width: 210mm; margin: 0 auto; padding: 10mm; -webkit-box-decoration-break: clone; box-decoration-break: clone; }",
    "section + section { break-before: page; page-break-before: always; }",
    "@media print { section { width: auto; max-width: 210mm; } }",
    "@media screen { section + section { border-top: 4px solid gray; } }",
    "h1 { font-size: 11pt; line-height: 15pt; max-height: 15pt; font-weight: normal; overflow: hidden; }",
    "h2 { font-size: 15pt; line-height: 20pt; }",
    "h3 { font-size: 12pt; line-height: 16pt; max-height: 16pt; overflow: hidden; }",
    "section p { padding-bottom: 4pt; }",
    "article { display: flex; align-items: center; min-height: var(--slot); padding: 3pt 0; border-top: 1pt dashed black; break-inside: avoid; page-break-inside: avoid; }",
    "article header { flex: 0 0 24mm; padding-right: 2mm; }",
    ".label { display: block; font-size: 16pt; line-height: 18pt; }",
    "small { display: block; font-size: 6.5pt; line-height: 8pt; }",
    "small + small { font-size: 8pt; line-height: 10pt; font-weight: bold; }",
    "aside { padding-bottom: 4pt; font-size: 8pt; line-height: 10pt; }",
    "article div { flex: 1 1 0; min-width: 0; font-family: 'Liberation Mono', 'DejaVu Sans Mono', 'Courier New', monospace; font-weight: bold; font-size: var(--letters); line-height: var(--row); }",
    "article p { position: relative; height: var(--row); padding: 0; }",
    ".word { position: absolute; white-space: pre; }",
    ".picture { flex: none; width: var(--picture); height: auto; margin-left: 4mm; }",
    "footer { display: flex; border-top: 1pt dashed black; padding: 4mm 0; }",
    "footer span { display: block; flex: 1 1 0; height: 9mm; margin-right: 5mm; border-bottom: 1pt solid black; font-size: 8pt; }",
    "footer span + span { flex: 0 0 30mm; margin-right: 0; }",
    "ol { display: flex; flex-wrap: wrap; list-style: none; border-top: 0.5pt solid gray; border-left: 0.5pt solid gray; }",
    "li { flex: 0 0 12.5%; height: 13.5mm; padding: 0.5mm 1mm; border-right: 0.5pt solid gray; border-bottom: 0.5pt solid gray; font-size: 6.5pt; line-height: 8pt; color: dimgray; }",
];

/// Begins a document of a competition's scrambles, whose name may be empty: its title, and all else that stands before its
/// first page.
pub fn write_head(page: &mut String, competition: &str) -> Result<(), AllocError>
    requires { HasNoControl competition.now }
    ensures { OnOk result
        (Adds (string_bytes page.old ++ doctype) (string_bytes page.new) (document_mark competition.now ∷ [])) }
{
    page.push_str("<!DOCTYPE html>\n")?;
    open(page, "html", &[("lang", "en")])?;
    begin(page, "head")?;
    open(page, "meta", &[("charset", "utf-8")])?;
    write_title(page, competition)?;
    write_rules(page, RULES)?;
    end(page, "head")?;
    begin(page, "body")?;
    Ok(())
}

/// Adds the document's title: a competition's name, if it is not empty.
fn write_title(page: &mut String, competition: &str) -> Result<(), AllocError>
    requires { HasNoControl competition.now }
    ensures { OnOk result
        (Adds (string_bytes page.old) (string_bytes page.new) (document_mark competition.now ∷ [])) }
{
    if competition.is_empty() {
        marked(page, "title", "document", "Scrambles")
    } else {
        marked(page, "title", "document", competition)
    }
}

/// Adds the rules of a style.
fn write_rules(page: &mut String, rules: &[&str]) -> Result<(), AllocError>
    requires { are_rules rules.now ≡ true }
    ensures { OnOk result (Adds (string_bytes page.old) (string_bytes page.new) []) }
{
    for &rule in rules {
        plain(page, "style", rule)?;
    }
    Ok(())
}

/// Ends a document behind its last page.
pub fn write_tail(page: &mut String) -> Result<(), AllocError>
    ensures { OnOk result (string_bytes page.new ≡ string_bytes page.old ++ document_end) }
{
    close(page, "body")?;
    close(page, "html")?;
    Ok(())
}
