ghost use Rattle.std.specs.Prelude.{◌≡◌, ℕ, ◌≤◌, ◌⊎◌, ◌↔◌, Bool, List, [], ◌++◌, ◌+◌, suc};
ghost use Rattle.bit_grammar.specs.declared.shapes.Shapes.{Shapes};
ghost use Rattle.bit_grammar.specs.Grammar.{Fault, Spells, Stops, Round, rounds};
ghost use Rattle.bit_grammar.specs.Marks.{Item, depth_in, values_in, Marks, BlockMark, block_item};
ghost use Rattle.bit_grammar.specs.Whole.{StopsAll, until_end};
ghost use Rattle.bit_grammar.specs.Blocks.{Limits, Handed, top_block, Scope, BlockHead, block_head, item, block};
ghost use Rattle.bit_grammar.specs.FormatBlocks.{top_with, HoldsDefinable, IsBlock, AreItems, PassIn};

/// A stream has at most one prefix that is a block, with all its items.
pub fn one_block()
    ensures { (limits : Limits) (handed : Handed) (p : ℕ) (s t x y : List Bool)
        (v w : Item × Handed)
        → s ++ x ≡ t ++ y → Spells (top_block limits handed) p s v
        → Spells (top_block limits handed) p t w
        → (s ≡ t) × (v ≡ w) }
{}

/// A stream has a prefix that is a block, or breaks with a fault.
pub fn block_or_fault()
    ensures { (limits : Limits) (handed : Handed) (p : ℕ) (r : List Bool)
        → ((s rest : List Bool) × (v : Item × Handed) × (r ≡ s ++ rest)
        × Spells (top_block limits handed) p s v)
        ⊎ ((fault : Fault) × Stops (top_block limits handed) p r fault) }
{}

/// What the rules spell at the top of a stream is a block. If the table holds only what can be defined, and no more values were
/// used before than the limit permits, it is a block in the words of the format that keeps to the limits, and each such block is
/// spelled. The table after the block also holds only what can be defined.
pub fn block_in_words()
    ensures words { (limits : Limits) (handed new : Handed) (p : ℕ) (s : List Bool)
        (mark : BlockMark)
        (inner : Marks) → handed.used ≤ limits.values → HoldsDefinable handed.table
        → (Spells (top_block limits handed) p s (block_item mark inner, new)
        ↔ (IsBlock (AreItems inner) (top_with handed.table) p mark s (top_with new.table)
        × (new.used ≡ handed.used + values_in inner) × (new.used ≤ limits.values)
        × (suc (depth_in inner) ≤ limits.depth) × PassIn limits.shapes inner)) }
    ensures only { (limits : Limits) (handed : Handed) (p : ℕ) (s : List Bool) (v : Item × Handed)
        → Spells (top_block limits handed) p s v
        → (mark : BlockMark) × (inner : Marks) × (v.0 ≡ block_item mark inner) }
    ensures lawful { (limits : Limits) (handed : Handed) (p : ℕ) (s : List Bool) (v : Item × Handed)
        → HoldsDefinable handed.table → Spells (top_block limits handed) p s v
        → HoldsDefinable v.1.table }
{}

/// Each item and each block takes bits, because the ids in a block have at least one bit. So a body and a stream stop by the fault
/// of an item, and the fault of a round that takes no bits never occurs.
pub fn no_idle_round()
    ensures item { (shapes : Shapes) (depth limit : ℕ) (h : BlockHead) (scope : Scope) (p : ℕ)
        (x : Round Scope Item (ℕ × Handed)) → 1 ≤ h.width
        → Spells (item shapes (block shapes depth limit) h limit scope) p [] x → ⊥ }
    ensures block { (limits : Limits) (handed : Handed) (p : ℕ) (v : Item × Handed)
        → Spells (top_block limits handed) p [] v → ⊥ }
    ensures width { (p : ℕ) (s : List Bool) (h : BlockHead) → Spells block_head p s h
        → 1 ≤ h.width }
    ensures body { (idle other : Fault) (shapes : Shapes) (depth limit : ℕ) (h : BlockHead)
        (scope : Scope) (p : ℕ)
        (r : List Bool) (fault : Fault) → 1 ≤ h.width
        → Stops (rounds idle (item shapes (block shapes depth limit) h limit) scope) p r fault
        → Stops (rounds other (item shapes (block shapes depth limit) h limit) scope) p r fault }
    ensures stream { (idle other : Fault) (limits : Limits) (handed : Handed) (p : ℕ)
        (r : List Bool)
        (fault : Fault) → StopsAll (until_end idle (top_block limits) handed) p r fault
        → StopsAll (until_end other (top_block limits) handed) p r fault }
{}
