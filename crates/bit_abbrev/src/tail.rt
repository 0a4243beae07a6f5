//! What follows the operands of a definition that stand for one value each.

ghost use Rattle.std.specs.Prelude.{◌≡◌, ◌≢◌, ◌-◌, ◌≤◌, length, true, false};
ghost use Rattle.bit_grammar.specs.FormatDefinition.{op_at, Lawful};
ghost use Rattle.bit_grammar.specs.declared.op.Op.TheVariants.{Array, Blob};
ghost use Rattle.bit_abbrev.specs.Operands.{HasTail, tail_length};

use bit_grammar::Op;

/// What follows the operands that stand for one value each: nothing, a blob, or an array and its element.
#[derive(Clone, Copy, Debug, PartialEq, Eq)]
pub(crate) enum Tail {
    Nothing,
    Blob,
    Array,
}

impl Tail {
    /// How many operands it has.
    #[inline(always)]
    pub(crate) fn len(self) -> usize
        ensures { result ≡ tail_length self }
    {
        match self {
            Tail::Nothing => 0,
            Tail::Blob => 1,
            Tail::Array => 2,
        }
    }
}

/// Whether the last operand but one is an array.
fn has_array(ops: &[Op]) -> bool
    ensures yes { result ≡ true → (2 ≤ length ops.now)
        × (op_at ops.now (length ops.now - 2) ≡ Array) }
    ensures no { result ≡ false → 2 ≤ length ops.now → op_at ops.now (length ops.now - 2) ≢ Array }
{
    ops.len() >= 2 && matches!(ops[ops.len() - 2], Op::Array)
}

/// Whether the last operand is a blob.
fn has_blob(ops: &[Op]) -> bool
    ensures yes { result ≡ true → (1 ≤ length ops.now)
        × (op_at ops.now (length ops.now - 1) ≡ Blob) }
    ensures no { result ≡ false → 1 ≤ length ops.now → op_at ops.now (length ops.now - 1) ≢ Blob }
{
    !ops.is_empty() && matches!(ops[ops.len() - 1], Op::Blob)
}

/// What follows the operands that stand for one value each, in a lawful list.
pub(crate) fn tail_of(ops: &[Op]) -> Tail
    ensures { Lawful ops.now → HasTail ops.now result }
{
    let [_, others @ ..] = ops else {
        return Tail::Nothing;
    };
    if has_array(others) {
        return Tail::Array;
    }
    if has_blob(others) {
        return Tail::Blob;
    }
    Tail::Nothing
}
