ghost use Rattle.std.specs.Prelude.{◌≡◌, ℕ, ◌^◌, ◌<◌, ◌≤◌, ◌↔◌, Bool, List, [], length, ◌*◌, slice_index};
ghost use Rattle.bit_grammar.specs.Grammar.{Spells};
ghost use Rattle.bit_grammar.specs.Fields.{fixed, vbr, align32, char6, byte};
ghost use Rattle.bit_grammar.specs.Terms.{chunk_limit, character};
ghost use Rattle.bit_grammar.specs.FormatFields.{IsFixed, IsVbr, IsPadding, shortest, IsChar6, characters};

/// A Fixed of width n is n bits, and its value is the number that they spell.
pub fn fixed_in_bits()
    ensures { (n p : ℕ) (s : List Bool) (v : ℕ) → (Spells (fixed n) p s v ↔ IsFixed n v s) }
{}

/// A byte is eight bits, and its value the number that they spell.
pub fn byte_in_bits()
    ensures { (p : ℕ) (s : List Bool) (v : ℕ) → (Spells byte p s v ↔ IsFixed 8 v s) }
{}

/// A VBR of width 2 or more is chunks whose payloads, each at its weight, add up to the value.
pub fn vbr_in_chunks()
    ensures { (n p : ℕ) (s : List Bool) (v : ℕ) → 2 ≤ n → (Spells (vbr n) p s v ↔ IsVbr n v s) }
{}

/// A VBR of width 0 takes no bits, and its value is 0.
pub fn vbr_of_no_width()
    ensures { (p : ℕ) (s : List Bool) (v : ℕ) → (Spells (vbr 0) p s v ↔ ((v ≡ 0) × (s ≡ []))) }
{}

/// The number of chunks that a VBR may have, each with at least one payload bit, is the least number with 64 payload bits.
pub fn chunks_for_64_bits()
    ensures enough { (payload : ℕ) → 1 ≤ payload → 64 ≤ chunk_limit payload * payload }
    ensures least { (payload k : ℕ) → 64 ≤ k * payload → chunk_limit payload ≤ k }
{}

/// The shortest VBR, of width 2 or more and for a value below 2^64, is one, no other is shorter, and no other is as short.
pub fn shortest_vbr()
    ensures { (n v : ℕ) → 2 ≤ n → v < 2 ^ 64
        → IsVbr n v (shortest n v)
        × ((s : List Bool) → IsVbr n v s
        → (length (shortest n v) ≤ length s)
        × (length s ≡ length (shortest n v) → s ≡ shortest n v)) }
{}

/// A character is six bits, and its value the ASCII code of the character with the number that they spell.
pub fn char6_in_bits()
    ensures { (p : ℕ) (s : List Bool) (v : ℕ) → (Spells char6 p s v ↔ IsChar6 v s) }
{}

/// The ASCII code of the character with a number is the one at that place of the table.
pub fn characters_in_table()
    ensures { (c : ℕ) → c < 64 → character c ≡ slice_index characters c }
{}

/// Padding is zeros only, fewer than 32, and ends at a multiple of 32.
pub fn padding_in_zeros()
    ensures { (p : ℕ) (s : List Bool) → (Spells align32 p s tt ↔ IsPadding p s) }
{}
