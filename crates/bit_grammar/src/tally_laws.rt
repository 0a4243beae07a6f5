ghost use Rattle.std.specs.Prelude.{◌≡◌, ℕ, ◌+◌, List, []};
ghost use Rattle.bit_grammar.specs.Setting.{Setting};
ghost use Rattle.bit_grammar.specs.Under.{items_under, events_under};
ghost use Rattle.bit_grammar.specs.Marks.{Marks, forest_of};
ghost use Rattle.bit_grammar.specs.Blocks.{Limits};
ghost use Rattle.bit_grammar.specs.Input.{SpellsInput};
ghost use Rattle.bit_grammar.specs.Terms.{Marked};
ghost use Rattle.bit_grammar.specs.Machine.{flat};
ghost use Rattle.bit_grammar.specs.Counting.{no_counts, count_events};
ghost use Rattle.bit_grammar.specs.Tally.{stream_bits, tally_of, bits_of_rows};
ghost use Rattle.bit_grammar.specs.Texts.{lines_of, events_text};

/// The bits of all rows of an analysis and the 32 of the magic add up to the bits of the stream.
pub fn bits_add_up()
    ensures { (limits : Limits) (bytes : List ℕ) (m : Marked) → SpellsInput limits bytes m
        → 32 + bits_of_rows (tally_of m) ≡ stream_bits m }
{}

/// One pass over the events of an input makes the rows of its analysis.
pub fn rows_by_events()
    ensures { (limits : Limits) (bytes : List ℕ) (m : Marked) → SpellsInput limits bytes m
        → (count_events (flat m.blocks []) no_counts).rows ≡ (tally_of m).rows }
{}

/// The lines of the events of a tree, one after another, are the lines of its listing.
pub fn lines_by_events()
    ensures { (setting : Setting) (marks : Marks)
        → events_text 0 (events_under setting [] (flat marks []))
        ≡ lines_of 0 (items_under setting 0 (forest_of marks)) }
{}
