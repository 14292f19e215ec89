//! What some words are by the definition of commands: numbers that they set, and words that are no command.

ghost use Rattle.std.specs.Prelude.{◌≡◌, ◌⊎◌, List, [], ◌∷◌, codes, Err};
ghost use Rattle.scr_command.specs.declared.command.UsageFault.TheVariants.{Grammar};
ghost use Rattle.scr_options.specs.OptionWords.{Text};
ghost use Rattle.scr_command.specs.Command.{HasOptions, command_of};
ghost use Rattle.scr_laws.specs.SheetRows.{Sets, AreRefused, SetsAttempts, AreNoCheck};

/// The numbers of a sheet: the usual ones, the least and the greatest, and those just outside.
pub fn numbers_of_a_sheet()
    ensures usual { Sets [] (record { workers = 1; tries = 2000; attempts = 1000; short = 1 }) }
    ensures least { Sets (codes "--short=1" ∷ codes "--workers=1" ∷ codes "--tries=0" ∷ codes "--attempts=1" ∷ [])
        (record { workers = 1; tries = 0; attempts = 1; short = 1 }) }
    ensures greatest { Sets (codes "--attempts=1000000" ∷ codes "--tries=100000" ∷ codes "--short=1000" ∷ codes "--workers=64" ∷ [])
        (record { workers = 64; tries = 100000; attempts = 1000000; short = 1000 }) }
    ensures workers { AreRefused (codes "--workers=0" ∷ []) × AreRefused (codes "--workers=65" ∷ []) }
    ensures tries { AreRefused (codes "--tries=100001" ∷ []) }
    ensures attempts { AreRefused (codes "--attempts=0" ∷ []) × AreRefused (codes "--attempts=1000001" ∷ []) }
    ensures short { AreRefused (codes "--short=0" ∷ []) × AreRefused (codes "--short=1001" ∷ []) }
{}

/// The attempts of a check: the usual ones and the greatest. It has no other number.
pub fn numbers_of_a_check()
    ensures usual { SetsAttempts [] 1000 }
    ensures greatest { SetsAttempts (codes "--attempts=1000000" ∷ []) 1000000 }
    ensures others { AreNoCheck (codes "--tries=1" ∷ []) × AreNoCheck (codes "--workers=1" ∷ [])
        × AreNoCheck (codes "--short=1" ∷ []) }
{}

/// Words that are no command: options twice, short, cut off, or of no name, values that are missing, and no words.
pub fn words_that_are_refused()
    ensures twice { AreRefused (codes "--tries=1" ∷ codes "--tries=1" ∷ []) × AreRefused (codes "--seed=0" ∷ []) }
    ensures short { AreRefused (codes "-w" ∷ codes "1" ∷ []) × AreRefused (codes "--work=1" ∷ []) }
    ensures unknown { AreRefused (codes "--help" ∷ []) × AreRefused (codes "1" ∷ []) × AreRefused (codes "--" ∷ []) }
    ensures without_value { AreRefused (codes "--tries" ∷ [])
        × AreRefused (codes "--tries" ∷ codes "--workers=1" ∷ []) }
    ensures without_seed { command_of (codes "sheet" ∷ codes "--tries=1" ∷ []) ≡ Err Grammar }
    ensures none { command_of [] ≡ Err Grammar }
{}

/// Only words of which the first is `sheet` or `check` have options.
pub fn words_that_have_options()
    ensures first { (first : Text) (others : List Text) → HasOptions (first ∷ others)
        → (first ≡ codes "sheet") ⊎ (first ≡ codes "check") }
    ensures none { ¬ (HasOptions []) }
{}
