//! The second line on the errors, with what helps after a refusal.

ghost use Rattle.std.specs.Prelude.{◌≡◌};
ghost use Rattle.bitstool.specs.Tips.{beginning_tip, front_tip, line_tip, refused_tip, shape_tip, tip_of};

use crate::beginning::Beginning;
use crate::outcome::Outcome;
use bit_fields::{Reason, Shapes};
use bit_norm::Which;
use bit_text::TextReason;

/// The tip for a definition with no lawful shape.
fn shape_tip(shapes: Shapes) -> &'static str
    ensures { result.now ≡ shape_tip shapes }
{
    match shapes {
        Shapes::AtDefinition => {
            "  tip: precompiled headers and module files of Clang 19 and later need '--shapes-at-use'\n"
        }
        Shapes::AtUse => "",
    }
}

/// The tip for an input that begins so.
fn beginning_tip(beginning: Beginning) -> &'static str
    ensures { result.now ≡ beginning_tip beginning }
{
    match beginning {
        Beginning::Gzip => "  tip: this begins like a gzip file: gunzip it first\n",
        Beginning::Xz => "  tip: this begins like an xz file: unxz it first\n",
        Beginning::Zstd => "  tip: this begins like a zstd file: unzstd it first\n",
        Beginning::Elf => {
            "  tip: this begins like an ELF file: take bitcode out of its section .llvmbc with objcopy\n"
        }
        Beginning::MachO => {
            "  tip: this begins like a Mach-O file: take bitcode out of its section __LLVM,__bitcode\n"
        }
        Beginning::Pe => "  tip: this begins like a PE file, a program or library for Windows\n",
        Beginning::Archive =>
            "  tip: this begins like an archive: 'llvm-ar p FILE MEMBER' prints a member\n",
        Beginning::Assembly =>
            "  tip: this begins like LLVM IR as text: llvm-as makes bitcode of it\n",
        Beginning::Text => "  tip: this begins like a text; a listing is for 'bitstool assemble'\n",
        Beginning::Unknown => "",
    }
}

/// The tip for a refusal at a bit of an input that begins so, which may be of another kind if it is refused at its first bits.
fn front_tip(beginning: Beginning, bit: u64) -> &'static str
    ensures { result.now ≡ front_tip beginning bit }
{
    if bit < 128 {
        beginning_tip(beginning)
    } else {
        ""
    }
}

/// The tip for a refusal for a reason at a bit of an input that begins so.
fn refused_tip(shapes: Shapes, beginning: Beginning, reason: Reason, bit: u64) -> &'static str
    ensures { result.now ≡ refused_tip shapes beginning reason bit }
{
    match reason {
        Reason::TooDeep => "  tip: '--depth N' permits more levels of nested blocks, at most 255\n",
        Reason::TooManyValues => "  tip: '--values N' permits more values, at most 4294967295\n",
        Reason::TooLong =>
            "  tip: '--bytes N' permits a longer input, of at most 17179869180 bytes\n",
        Reason::AbbrevShape => shape_tip(shapes),
        Reason::Truncated => {
            if bit == 0 {
                "  tip: the input is empty, or has fewer than 4 bytes\n"
            } else {
                front_tip(beginning, bit)
            }
        }
        _ => front_tip(beginning, bit),
    }
}

/// The tip for a listing that is refused for a reason.
fn line_tip(reason: TextReason) -> &'static str
    ensures { result.now ≡ line_tip reason }
{
    match reason {
        TextReason::TooDeep =>
            "  tip: '--depth N' permits more levels of nested blocks, at most 255\n",
        TextReason::TooManyValues =>
            "  tip: '--values N' permits more values, at most 4294967295\n",
        _ => "",
    }
}

/// The tip for the outcome of a command whose input begins so. What the second of two inputs begins like is not known.
pub fn tip_of(shapes: Shapes, beginning: Beginning, outcome: Outcome) -> &'static str
    ensures { result.now ≡ tip_of shapes beginning outcome }
{
    match outcome {
        Outcome::Refused { reason, bit } => refused_tip(shapes, beginning, reason, bit),
        Outcome::RefusedOf { which, reason, bit } => match which {
            Which::First => refused_tip(shapes, beginning, reason, bit),
            Which::Second => refused_tip(shapes, Beginning::Unknown, reason, bit),
        },
        Outcome::RefusedLine { reason, .. } => line_tip(reason),
        Outcome::TooLong { .. } => {
            "  tip: '--bytes N' permits a longer normal form, of at most 17179869180 bytes\n"
        }
        _ => "",
    }
}
