//! How the fields of a record are laid out.

ghost use Rattle.std.specs.Prelude.{◌≡◌, ◌≢◌, ◌<◌, ℕ, true, length};
ghost use Rattle.bit_grammar.specs.Definition.{has_shape};
ghost use Rattle.bit_grammar.specs.FormatDefinition.{op_at, Definable};
ghost use Rattle.bit_grammar.specs.declared.op.Op.TheVariants.{Vbr};
ghost use Rattle.bit_abbrev.specs.Operands.{HasTail};
ghost use Rattle.bit_abbrev.specs.Layouts.{HasLayout};

use crate::tail::Tail;
use bit_grammar::Op;

/// How many operands a definition has at most whose layout is not `Odd`.
const MOST: usize = 32;

/// How the fields of a record are laid out, if its definition has at most 32 operands.
#[derive(Clone, Copy, Debug, PartialEq, Eq)]
pub enum Layout {
    /// A code that is a literal, and single operands.
    Singles,
    /// A code that is a field, and single operands.
    Coded,
    /// A code, single operands and an array.
    List,
    /// Otherwise.
    Odd,
}

/// Whether each number has chunks: one in chunks of no bits is 0.
fn have_chunks(ops: &[Op]) -> bool
    ensures { result ≡ true → (i : ℕ) → i < length ops.now → op_at ops.now i ≢ Vbr 0 }
{
    for op in ops {
        if matches!(op, Op::Vbr(0)) {
            return false;
        }
    }
    true
}

/// How the fields of a record of these operands are laid out.
pub(crate) fn layout_of(ops: &[Op], usable: bool, tail: Tail) -> Layout
    requires definable { Definable ops.now }
    requires usable { usable ≡ has_shape ops.now }
    requires tail { usable ≡ true → HasTail ops.now tail }
    ensures { HasLayout ops.now result }
{
    if !usable || ops.len() > MOST || !have_chunks(ops) {
        return Layout::Odd;
    }
    match tail {
        Tail::Nothing => match ops[0] {
            Op::Literal(_) => Layout::Singles,
            _ => Layout::Coded,
        },
        Tail::Array => Layout::List,
        Tail::Blob => Layout::Odd,
    }
}
