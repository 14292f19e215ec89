//! Laws of tables as text. The functions do nothing: what each ensures is the law.

ghost use Rattle.std.specs.Prelude.{◌≡◌, ◌++◌, List, [], ◌∷◌, ℕ, codes};
ghost use Rattle.scr_text.specs.Lines.{text_of_lines};
ghost use Rattle.scr_table.specs.declared.name.TableName.TheVariants.{Corners};
ghost use Rattle.scr_table.specs.Distances.{Distances, Measures};
ghost use Rattle.scr_table.specs.Lines.{TableLine};
ghost use Rattle.scr_table.specs.Row.{row_line};
ghost use Rattle.scr_table.specs.TableStates.{by_positions};
ghost use Rattle.scr_table_text.specs.Counted.{AreEntryCounts, counted_text};
ghost use Rattle.scr_table_text.specs.TableText.{head_text, count_lines, IsTableText, IsTablesText};

/// What a table that measures a coordinate counts is what the coordinate has: the text is that of its positions.
pub fn measured()
    ensures { (line : TableLine) (table : Distances) (counts : List ℕ)
        → Measures line.coordinate table → table.name ≡ line.name → table.bound ≡ line.bound
        → AreEntryCounts table.distances counts → IsTableText (by_positions line) (counted_text table counts) }
{}

/// Texts that are known from elsewhere: of the 2x2x2, whose states are counted by how many turns each is from solved;
/// of a row of three positions; and of an event without tables.
pub fn known_texts()
    ensures of_222 { text_of_lines (head_text Corners 3674160 11 ∷ count_lines 0
        (1 ∷ 9 ∷ 54 ∷ 321 ∷ 1847 ∷ 9992 ∷ 50136 ∷ 227536 ∷ 870072 ∷ 1887748 ∷ 623800 ∷ 2644 ∷ []))
        ≡ codes "table corners positions 3674160 bound 11\n0 1\n1 9\n2 54\n3 321\n4 1847\n5 9992\n6 50136\n"
        ++ codes "7 227536\n8 870072\n9 1887748\n10 623800\n11 2644\n" }
    ensures of_a_row { IsTableText (by_positions (row_line 3 Corners 2)) (codes "table corners positions 3 bound 2\n0 1\n1 1\n2 1\n") }
    ensures of_none { IsTablesText [] (codes "no tables\n") }
{
    crate::table::rows();
    measured();
}
