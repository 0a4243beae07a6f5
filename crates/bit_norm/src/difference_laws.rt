ghost use Rattle.std.specs.Prelude.{◌≡◌, ◌⊎◌};
ghost use Rattle.bit_grammar.specs.Setting.{Setting};
ghost use Rattle.bit_grammar.specs.Under.{under};
ghost use Rattle.bit_grammar.specs.Input.{tree_of};
ghost use Rattle.bit_grammar.specs.Terms.{Marked};
ghost use Rattle.bit_norm.specs.Entries.{FirstDifference, Seen};

/// Two trees under a setting are the same or first differ somewhere, never both, and at one place at most.
pub fn one_difference()
    ensures some { (setting : Setting) (a b : Marked)
        → (under setting (tree_of a) ≡ under setting (tree_of b))
        ⊎ ((seen : Seen) × FirstDifference setting a b seen) }
    ensures none { (setting : Setting) (a b : Marked) (seen : Seen)
        → FirstDifference setting a b seen → under setting (tree_of a) ≡ under setting (tree_of b)
        → ⊥ }
    ensures one { (setting : Setting) (a b : Marked) (seen other : Seen)
        → FirstDifference setting a b seen → FirstDifference setting a b other → seen ≡ other }
{}
