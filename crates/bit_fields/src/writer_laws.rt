ghost use Rattle.std.specs.Prelude.{◌≡◌, ℕ, Bool, true, List, [], ◌++◌, Result, Err};
ghost use Rattle.bit_grammar.specs.Bits.{bits_of_bytes};
ghost use Rattle.bit_fields.specs.Writer.{Writer, TellsTaken, GainedBytes, Wrote, LostBits, Writes};
ghost use Rattle.bit_fields.specs.declared.fault.Fault.{Fault};

/// Writing nothing leaves a live writer as it is.
pub fn write_nothing()
    ensures { (w : Writer) → w.live ≡ true → Wrote w [] w }
{}

/// The bits of a second write come after those of the first; if it fails, a prefix of its bits does.
pub fn write_then_write()
    ensures { (a b c : Writer) (s t : List Bool) (r : Result (Unit {0}) Fault) → Wrote a s b
        → Writes t b r c → Writes (s ++ t) a r c }
{}

/// A write that fails also fails with more bits after it.
pub fn write_then_stop()
    ensures { (a b : Writer) (s t : List Bool) (fault : Fault) → Writes s a (Err fault) b
        → Writes (s ++ t) a (Err fault) b }
{}

/// If no bits are held before and after, the sink took the bytes of what was written; after a failure, a prefix of them.
pub fn bytes_of_writing()
    ensures all { (a b : Writer) (s : List Bool) → Wrote a s b → TellsTaken a → a.held ≡ []
        → b.held ≡ [] → (more : List ℕ) × GainedBytes a more b × (bits_of_bytes more ≡ s) }
    ensures front { (a b : Writer) (s : List Bool) → LostBits a s b → TellsTaken a → a.held ≡ []
        → (more : List ℕ) × (rest : List Bool) × GainedBytes a more b
        × (bits_of_bytes more ++ rest ≡ s) }
{}
