ghost use Rattle.std.specs.Prelude.{◌↔◌, ◌<◌, List, length};
ghost use Rattle.std.specs.List.{AllByRecursion};
ghost use Rattle.bit_grammar.specs.declared.op.Op.{Op};
ghost use Rattle.bit_grammar.specs.FormatDefinition.{Lawful};
ghost use Rattle.bit_abbrev.specs.Breaks.{LiteralFits, NoneBreaks};

/// A list of operands is lawful exactly if it is not empty, its literals have at most 64 bits and no operand breaks the rules.
pub fn lawful_unbroken()
    ensures { (ops : List Op) → (Lawful ops ↔ ((0 < length ops) × AllByRecursion LiteralFits ops
        × NoneBreaks ops)) }
{}
