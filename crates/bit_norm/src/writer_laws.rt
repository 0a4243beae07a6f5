ghost use Rattle.std.specs.Prelude.{◌≡◌, false, List, [], ◌∷◌, ◌++◌};
ghost use Rattle.bit_grammar.specs.Blocks.{Limits};
ghost use Rattle.bit_grammar.specs.Forest.{Tree};
ghost use Rattle.bit_norm.specs.Calls.{calls_of};
ghost use Rattle.bit_norm.specs.Telling.{AreFit, Call, IsFit, at_top, fits, told, where_after};

/// The calls of a tree tell it, and if it is fit and keeps to the limits, each of them fits where it comes. So a call that does not
/// fit is in no such tree, whatever is told after it. Calls that fit and leave no block open are those of a tree.
pub fn calls_of_trees()
    ensures tell { (tree : Tree) → told (calls_of tree.blocks []) 0 ≡ tree.blocks }
    ensures fit { (limits : Limits) (tree : Tree) → IsFit limits tree
        → AreFit limits at_top (calls_of tree.blocks []) }
    ensures misplaced { (limits : Limits) (tree : Tree) (before after : List Call) (call : Call)
        → fits limits (where_after before at_top) call ≡ false
        → calls_of tree.blocks [] ≡ before ++ call ∷ after → IsFit limits tree → ⊥ }
    ensures all { (limits : Limits) (calls : List Call) → AreFit limits at_top calls
        → (where_after calls at_top).depth ≡ 0 → calls_of (told calls 0) [] ≡ calls }
{}
