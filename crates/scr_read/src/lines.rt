//! The lines of a text, and what stands in them behind a front.

ghost use Rattle.std.specs.Prelude.{◌≡◌, ◌++◌, ◌∷◌, MatchOption};
ghost use Rattle.scr_read.specs.Faults.{IsOneLine, Begins};

use scr_text::line_feed;

/// The first line of a text, without its line feed, and what follows; `None` where no line feed stands in the text.
#[tactic(auto, using(crate::proofs::LineLemmas::no_cut))]
pub fn first_line(text: &[u8]) -> Option<(&[u8], &[u8])>
    ensures { MatchOption result (IsOneLine text.now)
        (λ parts. (text.now ≡ parts.0.now ++ 10 ∷ parts.1.now) × IsOneLine parts.0.now) }
{
    match line_feed(text) {
        Some(end) => Some((&text[..end], &text[end + 1..])),
        None => None,
    }
}

/// What stands in a line behind a front, if the line begins with it.
#[tactic(auto, using(crate::proofs::Cited::behind))]
pub(crate) fn behind<'t>(front: &str, line: &'t [u8]) -> Option<&'t [u8]>
    ensures { MatchOption result (Begins front.now line.now → ⊥) (λ behind. line.now ≡ front.now ++ behind.now) }
{
    let (begin, behind) = line.split_at_checked(front.len())?;
    if begin == front.as_bytes() {
        Some(behind)
    } else {
        None
    }
}
