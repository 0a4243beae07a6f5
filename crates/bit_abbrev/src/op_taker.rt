//! Lists that take operands.

ghost use Rattle.std.specs.Prelude.{◌≡◌, ◌++◌, ◌∷◌, [], List, OnOk, OnErr};
ghost use Rattle.bit_grammar.specs.declared.op.Op.{Op};

use bit_grammar::Op;
use std::alloc::AllocError;

/// A list that takes operands, one after another.
pub(crate) trait OpTaker {
    ghost use Rattle.std.specs.Prelude.{List};
    ghost use Rattle.bit_grammar.specs.declared.op.Op.{Op};

    // Whether adding these operands turns the one into the other.
    ghost added: { Self → List Op → Self → Type 0 };

    /// Adds an operand at the end. If there is no memory for it, nothing is added.
    fn take(&mut self, op: Op) -> Result<(), AllocError>
        ensures ok { OnOk result ((first : Self) (ops : List Op) → added first ops self.old
            → added first (ops ++ op ∷ []) self.new) }
        ensures err { OnErr result ((first : Self) (ops : List Op) → added first ops self.old
            → added first ops self.new) };
}
