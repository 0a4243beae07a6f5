ghost use Rattle.std.specs.Prelude.{◌≡◌, ℕ, true, ◌^◌, ◌<◌, ◌≤◌, ◌⊎◌, ◌↔◌, Bool, List, ◌++◌, length, ◌+◌};
ghost use Rattle.bit_grammar.specs.declared.op.Op.{Op};
ghost use Rattle.bit_grammar.specs.Grammar.{Fault, Spells, Stops};
ghost use Rattle.bit_grammar.specs.declared.shapes.Shapes.{Shapes};
ghost use Rattle.bit_grammar.specs.declared.shapes.Shapes.TheVariants.{AtDefinition};
ghost use Rattle.bit_grammar.specs.Definition.{definition, has_shape};
ghost use Rattle.bit_grammar.specs.FormatDefinition.{Definable, InOrder, Lawful, PassesShape, IsDefinition};
ghost use Rattle.bit_grammar.specs.Record.{abbreviated, unabbreviated};
ghost use Rattle.bit_grammar.specs.Terms.{CodeAndValues};
ghost use Rattle.bit_grammar.specs.FormatRecord.{IsUnabbreviated, IsAbbreviated};

/// A stream has at most one prefix that is a definition, and it defines one list of operands.
pub fn one_definition()
    ensures { (shapes : Shapes) (p : ℕ) (s t x y : List Bool) (v w : List Op) → s ++ x ≡ t ++ y
        → Spells (definition shapes) p s v → Spells (definition shapes) p t w → (s ≡ t) × (v ≡ w) }
{}

/// A definition whose shape is judged has a lawful list of operands.
pub fn lawful_definition()
    ensures { (p : ℕ) (s : List Bool) (ops : List Op) → Spells (definition AtDefinition) p s ops
        → Lawful ops }
{}

/// A definition is the number of its operands, and each of them; and if their order is judged it is lawful.
pub fn definition_in_words()
    ensures { (shapes : Shapes) (p : ℕ) (s : List Bool) (ops : List Op)
        → (Spells (definition shapes) p s ops ↔ (IsDefinition ops s × PassesShape shapes ops)) }
{}

/// Each list of operands with lawful values has a definition, if a VBR can spell its length.
pub fn every_definable_list()
    ensures { (ops : List Op) → Definable ops → length ops < 2 ^ 64
        → (s : List Bool) × IsDefinition ops s }
{}

/// Operands pass the judgement of shapes exactly if they are in order, each by its index.
pub fn shape_in_order()
    ensures { (ops : List Op) → ((has_shape ops ≡ true) ↔ InOrder ops) }
{}

/// A stream has at most one prefix that is a record by given operands.
pub fn one_record()
    ensures { (first room : ℕ) (ops : List Op) (p : ℕ) (s t x y : List Bool) (v w : CodeAndValues)
        → s ++ x ≡ t ++ y
        → Spells (abbreviated first room ops) p s v → Spells (abbreviated first room ops) p t w
        → (s ≡ t) × (v ≡ w) }
{}

/// A stream has a prefix that is a record by given operands, or breaks with a fault.
pub fn record_or_fault()
    ensures { (first room : ℕ) (ops : List Op) (p : ℕ) (r : List Bool)
        → ((s rest : List Bool) × (v : CodeAndValues) × (r ≡ s ++ rest)
        × Spells (abbreviated first room ops) p s v)
        ⊎ ((fault : Fault) × Stops (abbreviated first room ops) p r fault) }
{}

/// An unabbreviated record is the code, the number of its values and each value, at most as many as the limit still allows.
pub fn unabbreviated_in_words()
    ensures { (room p : ℕ) (s : List Bool) (e : CodeAndValues)
        → (Spells (unabbreviated room) p s e ↔ (IsUnabbreviated e s × (length e.values ≤ room))) }
{}

/// A record by a lawful list of operands is the fields of the operands, with at most as many values as the limit still allows.
pub fn abbreviated_in_words()
    ensures { (first room : ℕ) (ops : List Op) (p : ℕ) (s : List Bool) (e : CodeAndValues)
        → Lawful ops
        → (Spells (abbreviated first room ops) p s e
        ↔ (IsAbbreviated ops p e s × (length e.values ≤ room))) }
{}
