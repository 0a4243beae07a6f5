//! Operands as they are held.

ghost use Rattle.std.specs.Prelude.{◌≡◌, ◌<◌, ◌^◌, ◌∷◌, [], OnOk, OnErr};
ghost use Rattle.bit_grammar.specs.declared.op.Op.TheVariants.{Literal};
ghost use Rattle.bit_abbrev.specs.HeldOps.{more, ops_in, Holds, IsSmall, NoneEnds};

use bit_grammar::Op;
use std::alloc::AllocError;

/// An operand of a definition as it is held, in two bytes. A literal above 255 is held as two of them, or as eight if it is above
/// 65,535, from the last byte of its value to the first.
#[derive(Clone, Copy, Debug, Default, Drop)]
pub(crate) enum HeldOp {
    Literal(u8),
    Fixed(u8),
    Vbr(u8),
    Array,
    Char6,
    Blob,
    /// The last byte of a greater literal.
    Great(u8),
    /// Another byte of it.
    More(u8),
    /// What follows the last operand of a definition, if other definitions are held after it.
    #[default]
    End,
}

/// A literal as it is held if it is above 255 and has two bytes.
fn two_bytes(value: u64) -> [HeldOp; 2]
    requires { value < 2 ^ 16 }
    ensures ops { ops_in result ≡ Literal value ∷ [] }
    ensures whole { more result ≡ 0 }
    ensures none { NoneEnds result }
{
    [
        HeldOp::Great((value % 256) as u8),
        HeldOp::More((value / 256) as u8),
    ]
}

/// A literal as it is held if it has more bytes.
fn great(value: u64) -> [HeldOp; 8]
    ensures ops { ops_in result ≡ Literal value ∷ [] }
    ensures whole { more result ≡ 0 }
    ensures none { NoneEnds result }
{
    let second = value / 256;
    let third = second / 256;
    let fourth = third / 256;
    let fifth = fourth / 256;
    let sixth = fifth / 256;
    let seventh = sixth / 256;
    let eighth = seventh / 256;
    [
        HeldOp::Great((value % 256) as u8),
        HeldOp::More((second % 256) as u8),
        HeldOp::More((third % 256) as u8),
        HeldOp::More((fourth % 256) as u8),
        HeldOp::More((fifth % 256) as u8),
        HeldOp::More((sixth % 256) as u8),
        HeldOp::More((seventh % 256) as u8),
        HeldOp::More((eighth % 256) as u8),
    ]
}

/// Another operand as it is held.
fn small(op: Op) -> HeldOp
    requires { IsSmall op }
    ensures ops { ops_in (result ∷ []) ≡ op ∷ [] }
    ensures whole { more (result ∷ []) ≡ 0 }
    ensures none { NoneEnds (result ∷ []) }
{
    match op {
        Op::Literal(value) => HeldOp::Literal(value as u8),
        Op::Fixed(width) => HeldOp::Fixed(width),
        Op::Vbr(width) => HeldOp::Vbr(width),
        Op::Array => HeldOp::Array,
        Op::Char6 => HeldOp::Char6,
        Op::Blob => HeldOp::Blob,
    }
}

/// Adds an operand at the end of a list. If there is no memory for it, nothing changes.
#[inline(always)]
pub(crate) fn push(held: &mut Vec<HeldOp>, op: Op) -> Result<(), AllocError>
    ensures ok { OnOk result (Holds held.old.items held.new.items (op ∷ [])) }
    ensures err { OnErr result (held.new.items ≡ held.old.items) }
{
    match op {
        Op::Literal(value) if value >= 1 << 16 => held.extend_from_slice(&great(value))?,
        Op::Literal(value) if value > 255 => held.extend_from_slice(&two_bytes(value))?,
        op => held.push(small(op))?,
    }
    Ok(())
}
