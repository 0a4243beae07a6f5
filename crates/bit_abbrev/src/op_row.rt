//! Rows of few operands.

ghost use Rattle.std.specs.Prelude.{◌≡◌, [], length};

use crate::op_taker::OpTaker;
use bit_grammar::Op;
use std::alloc::AllocError;
use std::marker::Model;

/// How many operands a row has room for.
pub(crate) const ROW: usize = 12;

/// Up to twelve operands, without an allocation.
#[derive(Drop)]
pub(crate) struct OpRow {
    ops: [Op; ROW],
    len: usize,
}

impl Model for OpRow {
    ghost use Rattle.std.specs.Prelude.{◌≡◌, ◌≤◌, List, take, length};
    ghost use Rattle.bit_grammar.specs.declared.op.Op.{Op};

    ghost Value = { List Op };

    ghost view = { λ row. take row.len row.ops };

    ghost invariant = { λ row. (row.len ≤ 12) × (length row.ops ≡ 12) };
}

impl OpRow {
    /// A row without operands.
    #[inline(always)]
    pub(crate) fn new() -> OpRow
        ensures { result ≡ [] }
    {
        OpRow {
            ops: [Op::Literal(0); ROW],
            len: 0,
        }
    }

    /// The operands.
    #[inline(always)]
    pub(crate) fn as_slice(&self) -> &[Op]
        ensures { result.now ≡ self.now }
    {
        &self.ops[..self.len]
    }
}

impl OpTaker for OpRow {
    ghost use Rattle.std.specs.Prelude.{◌≡◌, ◌++◌};

    ghost added = { λ first ops last. last ≡ first ++ ops };

    #[inline(always)]
    fn take(&mut self, op: Op) -> Result<(), AllocError> {
        if self.len >= ROW {
            return Err(AllocError);
        }
        self.ops[self.len] = op;
        self.len += 1;
        Ok(())
    }
}
