ghost use Rattle.std.specs.Prelude.{◌≡◌, ◌↔◌, ◌⊎◌, ◌∷◌, ◌++◌, ℕ, List, Some, Ok, Err};
ghost use Rattle.bit_grammar.specs.Blocks.{Limits};
ghost use Rattle.bit_grammar.specs.Forest.{Fit, Tree};
ghost use Rattle.bit_grammar.specs.FormatListing.{AreParts};
ghost use Rattle.bit_grammar.specs.Normal.{Capped};
ghost use Rattle.bit_grammar.specs.Texts.{listing_of};
ghost use Rattle.bit_grammar.specs.Input.{tree_of, SpellsInput};
ghost use Rattle.bit_grammar.specs.Setting.{Setting};
ghost use Rattle.bit_grammar.specs.Terms.{Marked};
ghost use Rattle.bit_grammar.specs.Under.{under};
ghost use Rattle.bit_fields.specs.Devices.{Incoming, Outgoing};
ghost use Rattle.bit_norm.specs.Telling.{IsFit};
ghost use Rattle.bit_norm.specs.Writing.{WritesForm};
ghost use Rattle.bit_text.specs.declared.reason.TextReason.{TextReason};
ghost use Rattle.bit_text.specs.declared.reason.TextReason.TheVariants.{NoMagic};
ghost use Rattle.bit_text.specs.Refusals.{Breaks, HasNoMagic, IsRefused};
ghost use Rattle.bit_text.specs.declared.fault.AssembleFault.TheVariants.{Refused};
ghost use Rattle.bit_text.specs.Assembling.{Assembles};
ghost use Rattle.bit_text.specs.Entries.{Lists};
ghost use Rattle.bit_text.specs.Listings.{reading_of};

/// A text is read as a tree exactly if it lists that tree, in the words of the format, within the limits. So it lists at most one
/// tree, whatever the limits.
pub fn listing_exact()
    ensures exact { (limits : Limits) (text : List ℕ) (tree : Tree) → Capped limits
        → (reading_of limits text ≡ Ok tree ↔ Lists limits text tree) }
    ensures one { (limits other : Limits) (text : List ℕ) (a b : Tree) → Lists limits text a
        → Lists other text b → a ≡ b }
{}

/// A text is refused for a reason at a line exactly if the line breaks so, in the words of the format, after lines that list a tree
/// or say nothing; or if it has no magic, with its last line. No text with the same lines up to one that breaks lists a tree within
/// the limits.
pub fn refused_exact()
    ensures exact { (limits : Limits) (text : List ℕ) (reason : TextReason) (number : ℕ)
        → Capped limits → (reading_of limits text ≡ Err (reason, number)
        ↔ (IsRefused limits text reason number
        ⊎ ((reason ≡ NoMagic) × HasNoMagic text number))) }
    ensures never { (limits : Limits) (before after : List (List ℕ)) (line : List ℕ)
        (reason : TextReason) (text : List ℕ) (tree : Tree)
        → Capped limits → Breaks limits before line reason
        → AreParts 10 text (before ++ line ∷ after) → Lists limits text tree → ⊥ }
{}

/// The listing of a fit tree within the limits spells it, so trees with the same listing are equal. What is read is a fit tree
/// within the limits.
pub fn listing_spells()
    ensures spells { (limits : Limits) (tree : Tree) → IsFit limits tree
        → reading_of limits (listing_of tree) ≡ Ok tree }
    ensures fit { (limits : Limits) (text : List ℕ) (tree : Tree) → Capped limits
        → reading_of limits text ≡ Ok tree → IsFit limits tree }
    ensures determines { (a b : Tree) → Fit a → Fit b → listing_of a ≡ listing_of b → a ≡ b }
{}

/// The listing that `write_show` writes of an input under a setting, the listing of what is left of its tree, spells exactly that.
/// So it is never refused, and `assemble` writes of it the form that `normalise` writes of the input.
pub fn shown_assembled()
    ensures reads { (setting : Setting) (limits : Limits) (bytes : List ℕ) (m : Marked)
        → Capped limits → SpellsInput limits bytes m
        → reading_of limits (listing_of (under setting (tree_of m))) ≡ Ok (under setting (tree_of m)) }
    ensures form { (setting : Setting) (limits : Limits) (bytes : List ℕ) (m : Marked)
        (i later : Incoming) (old new : Outgoing) (count : ℕ)
        → Capped limits → SpellsInput limits bytes m
        → i.to_come ≡ Some (listing_of (under setting (tree_of m)))
        → Assembles limits i old (Ok count) later new
        → WritesForm (under setting (tree_of m)) limits.bytes old (Ok count) new }
    ensures taken { (setting : Setting) (limits : Limits) (bytes : List ℕ) (m : Marked)
        (i later : Incoming) (old new : Outgoing) (reason : TextReason) (line : ℕ)
        → Capped limits → SpellsInput limits bytes m
        → i.to_come ≡ Some (listing_of (under setting (tree_of m)))
        → Assembles limits i old (Err (Refused reason line)) later new → ⊥ }
{}
