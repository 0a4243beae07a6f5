ghost use Rattle.std.specs.Prelude.{◌≡◌, ℕ, ◌≤◌, List, [], ◌∷◌};
ghost use Rattle.bit_grammar.specs.Setting.{Setting, keep, setting_of};
ghost use Rattle.bit_grammar.specs.declared.info.Info.TheVariants.{Keep, Drop};
ghost use Rattle.bit_grammar.specs.Forest.{Tree, forest_depth, forest_values, Fit, Forest, AreBlocks, FitForest};
ghost use Rattle.bit_grammar.specs.Normal.{Capped, HasTree};
ghost use Rattle.bit_grammar.specs.Machine.{flat};
ghost use Rattle.bit_grammar.specs.Marks.{Marks, forest_of};
ghost use Rattle.bit_grammar.specs.Blocks.{Limits};
ghost use Rattle.bit_grammar.specs.Input.{tree_of, SpellsInput};
ghost use Rattle.bit_grammar.specs.Terms.{Marked};
ghost use Rattle.bit_grammar.specs.Under.{items_under, under, HasNoneNamed, events_under};

/// Under limits within their caps, the tree of an input is fit under each setting.
pub fn fit_tree()
    ensures { (setting : Setting) (limits : Limits) (bytes : List ℕ) (m : Marked) → Capped limits
        → SpellsInput limits bytes m → Fit (under setting (tree_of m)) }
{}

/// `Keep` is the setting without names, and `Drop` the one that names the blocks 0 and nothing else.
pub fn settings_by_names()
    ensures keep { setting_of Keep ≡ record { blocks = []; records = [] } }
    ensures drop { setting_of Drop ≡ record { blocks = 0 ∷ []; records = [] } }
{}

/// Reading is the same under each setting: an input has a tree under a setting exactly if it has a whole tree of which that is
/// left.
pub fn reading_stays()
    ensures whole { (setting : Setting) (limits : Limits) (bytes : List ℕ) (tree : Tree)
        → HasTree setting limits bytes tree
        → (all : Tree) × HasTree keep limits bytes all × (under setting all ≡ tree) }
    ensures left { (setting : Setting) (limits : Limits) (bytes : List ℕ) (all : Tree)
        → HasTree keep limits bytes all → HasTree setting limits bytes (under setting all) }
{}

/// Under the setting that keeps all a tree stays as it is. To apply a setting a second time changes nothing. A setting keeps a tree
/// fit, and adds no depth and no values.
pub fn tree_under()
    ensures kept { (tree : Tree) → under keep tree ≡ tree }
    ensures again { (setting : Setting) (tree : Tree)
        → under setting (under setting tree) ≡ under setting tree }
    ensures fit { (setting : Setting) (tree : Tree) → Fit tree → Fit (under setting tree) }
    ensures fit_items { (setting : Setting) (around : ℕ) (f : Forest) → FitForest f
        → FitForest (items_under setting around f) }
    ensures blocks { (setting : Setting) (around : ℕ) (f : Forest) → AreBlocks f
        → AreBlocks (items_under setting around f) }
    ensures depth { (setting : Setting) (around : ℕ) (f : Forest)
        → forest_depth (items_under setting around f) ≤ forest_depth f }
    ensures values { (setting : Setting) (around : ℕ) (f : Forest)
        → forest_values (items_under setting around f) ≤ forest_values f }
{}

/// No item of a tree under a setting is named by it, at any depth, and a tree without named items stays as it is.
pub fn none_named()
    ensures left { (setting : Setting) (around : ℕ) (f : Forest)
        → HasNoneNamed setting around (items_under setting around f) }
    ensures stays { (setting : Setting) (around : ℕ) (f : Forest) → HasNoneNamed setting around f
        → items_under setting around f ≡ f }
{}

/// The kept events of a marked tree are the events of one whose items are the kept items.
pub fn events_left()
    ensures { (setting : Setting) (m : Marks) → (n : Marks)
        × (events_under setting [] (flat m []) ≡ flat n [])
        × (forest_of n ≡ items_under setting 0 (forest_of m)) }
{}
