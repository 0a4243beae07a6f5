ghost use Rattle.std.specs.Prelude.{true, ◌≡◌, ℕ, ◌≤◌, ◌⊎◌, ◌↔◌, List, length};
ghost use Rattle.bit_grammar.specs.declared.shapes.Shapes.TheVariants.{AtDefinition, AtUse};
ghost use Rattle.bit_grammar.specs.declared.reason.Reason.TheVariants.{AbbrevShape};
ghost use Rattle.bit_grammar.specs.Bits.{bits_of_bytes};
ghost use Rattle.bit_grammar.specs.Grammar.{Fault};
ghost use Rattle.bit_grammar.specs.Marks.{depth_in, values_in};
ghost use Rattle.bit_grammar.specs.Blocks.{Limits, judged_at};
ghost use Rattle.bit_grammar.specs.FormatBlocks.{PassIn};
ghost use Rattle.bit_grammar.specs.Input.{is_closed, EndsWithin, SpellsInput, BreaksInput};
ghost use Rattle.bit_grammar.specs.Terms.{Marked};
ghost use Rattle.bit_grammar.specs.FormatInput.{IsInput};

/// An input spells at most one marked tree.
pub fn one_tree()
    ensures { (limits : Limits) (bytes : List ℕ) (m n : Marked) → SpellsInput limits bytes m
        → SpellsInput limits bytes n → m ≡ n }
{}

/// An input breaks with at most one fault, at one bit.
pub fn one_fault()
    ensures { (limits : Limits) (bytes : List ℕ) (f g : Fault) → BreaksInput limits bytes f
        → BreaksInput limits bytes g → f ≡ g }
{}

/// An input that breaks spells no tree.
pub fn not_both()
    ensures { (limits : Limits) (bytes : List ℕ) (m : Marked) (f : Fault)
        → SpellsInput limits bytes m
        → BreaksInput limits bytes f → ⊥ }
{}

/// Every input spells a tree, or breaks with a fault.
pub fn tree_or_fault()
    ensures { (limits : Limits) (bytes : List ℕ) → ((m : Marked) × SpellsInput limits bytes m)
        ⊎ ((fault : Fault) × BreaksInput limits bytes fault) }
{}

/// An input that spells a tree under limits spells it under all limits that the tree keeps to: limits on depth and values, and
/// shapes, that are judged item by item are those of the tree.
pub fn limits_of_tree()
    ensures { (a b : Limits) (bytes : List ℕ) (m : Marked) → SpellsInput a bytes m
        → (SpellsInput b bytes m
        ↔ ((length bytes ≤ b.bytes) × (depth_in m.blocks ≤ b.depth)
        × (values_in m.blocks ≤ b.values)
        × PassIn b.shapes m.blocks)) }
{}

/// An input longer than the limit keeps a Truncated exactly if a wrapper header that is complete within the limit says that its
/// stream ends within it.
pub fn closed_by_wrapper()
    ensures { (limits : Limits) (bytes : List ℕ)
        → ((is_closed limits bytes ≡ true) ↔ EndsWithin limits bytes) }
{}

/// In the words of the format alone, without limits, bytes are an input of at most one marked tree.
pub fn one_tree_in_words()
    ensures { (bytes : List ℕ) (m n : Marked) → IsInput m (bits_of_bytes bytes)
        → IsInput n (bits_of_bytes bytes) → m ≡ n }
{}

/// An input that spells a tree under limits is an input in the words of the format that keeps to them: to the limits on bytes,
/// depth and values, and if shapes are judged at the definition each definition is in a lawful order. And each such input is
/// spelled.
pub fn input_in_words()
    ensures { (limits : Limits) (bytes : List ℕ) (m : Marked)
        → (SpellsInput limits bytes m
        ↔ (IsInput m (bits_of_bytes bytes) × (length bytes ≤ limits.bytes)
        × (depth_in m.blocks ≤ limits.depth) × (values_in m.blocks ≤ limits.values)
        × PassIn limits.shapes m.blocks)) }
{}

/// If shapes are judged at their use, each input that is accepted with shapes judged at the definition is accepted, with the same
/// tree. Nothing else changes, except for inputs that are refused with AbbrevShape at the definition.
pub fn shapes_apart()
    ensures taken { (limits : Limits) (bytes : List ℕ) (m : Marked)
        → SpellsInput (judged_at AtDefinition limits) bytes m
        → SpellsInput (judged_at AtUse limits) bytes m }
    ensures refused { (limits : Limits) (bytes : List ℕ) (fault : Fault)
        → BreaksInput (judged_at AtDefinition limits) bytes fault
        → (fault.reason ≡ AbbrevShape) ⊎ BreaksInput (judged_at AtUse limits) bytes fault }
{}
