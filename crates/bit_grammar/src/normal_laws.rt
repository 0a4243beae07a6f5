ghost use Rattle.std.specs.Prelude.{◌≡◌, ℕ, ◌<◌, ◌≤◌, List, length, ◌*◌, ◌+◌, ◌-◌, ◌%◌};
ghost use Rattle.bit_grammar.specs.Bits.{bits_of_bytes};
ghost use Rattle.bit_grammar.specs.Forest.{Tree, forest_depth, forest_values, Fit, Forest, AreBlocks};
ghost use Rattle.bit_grammar.specs.Normal.{normal_form, most_bytes, Capped, HasTree, chain, normal, end_text};
ghost use Rattle.bit_grammar.specs.Fields.{vbr};
ghost use Rattle.bit_grammar.specs.Terms.{chunk_limit, Marked};
ghost use Rattle.bit_grammar.specs.FormatFields.{shortest};
ghost use Rattle.bit_grammar.specs.Blocks.{Limits};
ghost use Rattle.bit_grammar.specs.Setting.{Setting, keep};
ghost use Rattle.bit_grammar.specs.Input.{tree_of, SpellsInput};
ghost use Rattle.std.specs.List.{All};
ghost use Rattle.bit_grammar.specs.Under.{under};
ghost use Rattle.bit_grammar.specs.Size.{shortest_length, end_of, body_length, size_of};

/// The normal form of a fit tree is spelled by a marked tree with that tree, under all limits within their caps that the
/// form and the tree keep to.
pub fn normal_spelled()
    ensures { (limits : Limits) (tree : Tree) (bytes : List ℕ) → Capped limits → Fit tree
        → bits_of_bytes bytes ≡ normal_form tree → length bytes ≤ limits.bytes
        → forest_depth tree.blocks ≤ limits.depth → forest_values tree.blocks ≤ limits.values
        → HasTree keep limits bytes tree }
{}

/// Fit trees with the same normal form are the same, if the form and the trees keep to common limits within their caps.
pub fn one_tree_of_normal()
    ensures { (limits : Limits) (a b : Tree) (bytes : List ℕ) → Capped limits → Fit a → Fit b
        → bits_of_bytes bytes ≡ normal_form a → bits_of_bytes bytes ≡ normal_form b
        → length bytes ≤ limits.bytes → forest_depth a.blocks ≤ limits.depth
        → forest_values a.blocks ≤ limits.values → forest_depth b.blocks ≤ limits.depth
        → forest_values b.blocks ≤ limits.values → a ≡ b }
{}

/// Fit trees with the same normal form are the same, if the form is no longer than the cap on bytes, so that each length in it fits
/// its field.
pub fn one_tree_of_form()
    ensures { (a b : Tree) → Fit a → Fit b → size_of a ≤ most_bytes → normal_form a ≡ normal_form b
        → a ≡ b }
{}

/// Under each setting and limits within their caps: if the normal form of the input's tree under the setting fits the limit on
/// bytes, it is spelled under the same limits, and only with that tree; nothing of that tree is left out under the setting, so it
/// is its own normal form; and inputs whose normal forms are the same bytes have the same tree.
pub fn normal_once()
    ensures spelled { (setting : Setting) (limits : Limits) (bytes out : List ℕ) (m : Marked)
        → Capped limits
        → SpellsInput limits bytes m → bits_of_bytes out ≡ normal_form (under setting (tree_of m))
        → length out ≤ limits.bytes → HasTree setting limits out (under setting (tree_of m)) }
    ensures whole { (setting : Setting) (limits : Limits) (bytes out : List ℕ) (m n : Marked)
        → Capped limits
        → SpellsInput limits bytes m → bits_of_bytes out ≡ normal_form (under setting (tree_of m))
        → length out ≤ limits.bytes → SpellsInput limits out n
        → tree_of n ≡ under setting (tree_of m) }
    ensures once { (setting : Setting) (limits : Limits) (bytes out : List ℕ) (m n : Marked)
        → Capped limits
        → SpellsInput limits bytes m → bits_of_bytes out ≡ normal_form (under setting (tree_of m))
        → length out ≤ limits.bytes → SpellsInput limits out n
        → under setting (tree_of n) ≡ under setting (tree_of m) }
    ensures again { (setting : Setting) (limits : Limits) (bytes out : List ℕ) (m n : Marked)
        → Capped limits
        → SpellsInput limits bytes m → bits_of_bytes out ≡ normal_form (under setting (tree_of m))
        → length out ≤ limits.bytes → SpellsInput limits out n
        → bits_of_bytes out ≡ normal_form (under setting (tree_of n)) }
    ensures same { (setting : Setting) (limits : Limits) (bytes bytes' out : List ℕ) (m n : Marked)
        → Capped limits
        → SpellsInput limits bytes m → SpellsInput limits bytes' n
        → bits_of_bytes out ≡ normal_form (under setting (tree_of m))
        → bits_of_bytes out ≡ normal_form (under setting (tree_of n))
        → length out ≤ limits.bytes → under setting (tree_of m) ≡ under setting (tree_of n) }
{}

/// Under each setting and limits within their caps, an input's tree has a normal form, if the limit on bytes has room for it: bytes
/// that spell the tree.
pub fn form_of_input()
    ensures { (setting : Setting) (limits : Limits) (bytes : List ℕ) (m : Marked) → Capped limits
        → SpellsInput limits bytes m → size_of (under setting (tree_of m)) ≤ limits.bytes
        → (out : List ℕ) × All (λ b. b < 256) out
        × (bits_of_bytes out ≡ normal_form (under setting (tree_of m)))
        × HasTree setting limits out (under setting (tree_of m)) }
{}

/// The lengths in bits of the shortest VBR, of items, of a block's body and of a whole normal form; of blocks, in bytes.
pub fn normal_size()
    ensures vbr { (n v : ℕ) → 1 ≤ n → length (shortest n v) ≡ shortest_length n v }
    ensures vbr_range { (n v : ℕ) → 2 ≤ n
        → (n ≤ shortest_length n v) × (shortest_length n v ≤ n * chunk_limit (n - 1)) }
    ensures items { (f : Forest) (p : ℕ) → p + length (normal f p) ≡ end_of f p }
    ensures body { (inner : Forest) (k : ℕ)
        → length (chain (normal inner) end_text (32 * k)) ≡ body_length inner }
    ensures form { (tree : Tree) → length (normal_form tree) ≡ end_of tree.blocks 32 }
    ensures tree { (tree : Tree) → AreBlocks tree.blocks
        → length (normal_form tree) ≡ 8 * size_of tree }
{}

/// The normal form of items depends on its position modulo 32 only, and so does its length; bodies are whole words.
pub fn normal_at()
    ensures text { (f : Forest) (p k : ℕ) → normal f (p + 32 * k) ≡ normal f p }
    ensures end { (f : Forest) (p k : ℕ) → end_of f (p + 32 * k) ≡ end_of f p + 32 * k }
    ensures body { (inner : Forest) → body_length inner % 32 ≡ 0 }
{}

/// Items do not end before they begin, and not earlier if they begin later, and no setting makes a tree larger.
pub fn size_order()
    ensures grows { (f : Forest) (p : ℕ) → p ≤ end_of f p }
    ensures later { (f : Forest) (p q : ℕ) → p ≤ q → end_of f p ≤ end_of f q }
    ensures under { (setting : Setting) (tree : Tree)
        → size_of (under setting tree) ≤ size_of tree }
{}

/// The normal form of blocks is whole bytes, as many as its size, a multiple of four.
pub fn normal_bytes()
    ensures bytes { (tree : Tree) → AreBlocks tree.blocks
        → (bytes : List ℕ) × All (λ b. b < 256) bytes × (bits_of_bytes bytes ≡ normal_form tree)
        × (length bytes ≡ size_of tree) }
    ensures size { (tree : Tree) (bytes : List ℕ) → bits_of_bytes bytes ≡ normal_form tree
        → length bytes ≡ size_of tree }
    ensures words { (tree : Tree) → AreBlocks tree.blocks → size_of tree % 4 ≡ 0 }
{}

/// Bits are those of at most one list of bytes, each of eight bits.
pub fn one_list_of_bytes()
    ensures same { (a b : List ℕ) → All (λ x. x < 256) a → All (λ x. x < 256) b
        → bits_of_bytes a ≡ bits_of_bytes b → a ≡ b }
    ensures bits { (bytes : List ℕ) → length (bits_of_bytes bytes) ≡ 8 * length bytes }
{}
