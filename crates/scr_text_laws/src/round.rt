//! What whole rounds look like: a call that does nothing, whose contract has rows of the definition of a
//! round's text.

ghost use Rattle.std.specs.Prelude.{◌≡◌, codes};
ghost use Rattle.scr_round.specs.Round.{heading, round_text};
ghost use Rattle.scr_text_laws.specs.RoundRows.{two_groups, scrambles_of_two_groups, text_of_two_groups, one_group};
ghost use Rattle.scr_text_laws.specs.RoundRows.{scrambles_of_one_group, text_of_one_group, round_with_name};

/// The text of a round of two groups with a minimum, the first of its list, and of one of random moves, the tenth; and
/// the head of a round with a name.
pub fn whole_rounds()
    ensures minimum { round_text 0 two_groups scrambles_of_two_groups ≡ text_of_two_groups }
    ensures random_moves { round_text 9 one_group scrambles_of_one_group ≡ text_of_one_group }
    ensures named { heading 0 round_with_name ≡ codes "Round 1: Clock, at least 2, Final" }
{}
