//! The versions of the calls and of the normal form, and the names of the reasons.

ghost use Rattle.std.specs.Prelude.{◌≡◌};
ghost use Rattle.bit_c.specs.Naming.{IsReason, IsTextReason, Names};

use bit_fields::Reason;
use bit_norm::FORM_VERSION;
use bit_text::TextReason;

/// The version of these calls, structures and numbers: `BS_VERSION` of `capi/bitstream.h`.
#[unsafe(no_mangle)]
pub extern "C" fn bs_version() -> u32
    ensures { result ≡ 1 }
{
    1
}

/// The version of the normal form: `BS_FORM_VERSION` of `capi/bitstream.h`.
#[unsafe(no_mangle)]
pub extern "C" fn bs_form_version() -> u32
    ensures { result ≡ FORM_VERSION }
{
    FORM_VERSION
}

/// The reason with this number.
fn reason_of(number: u32) -> Option<Reason>
    ensures { IsReason number result }
{
    Some(match number {
        1 => Reason::Truncated,
        2 => Reason::ValueTooWide,
        3 => Reason::TopLevel,
        4 => Reason::TooDeep,
        5 => Reason::BlockId,
        6 => Reason::AbbrevWidth,
        7 => Reason::DirtyPadding,
        8 => Reason::BlockLength,
        9 => Reason::UndefinedAbbrev,
        10 => Reason::AbbrevEmpty,
        11 => Reason::AbbrevEncoding,
        12 => Reason::FieldWidth,
        13 => Reason::AbbrevShape,
        14 => Reason::NoBlockSet,
        15 => Reason::BadSetBid,
        16 => Reason::NestedInBlockInfo,
        17 => Reason::TooManyValues,
        18 => Reason::TooLong,
        19 => Reason::WrapperVersion,
        20 => Reason::WrapperOffset,
        21 => Reason::WrapperSize,
        22 => Reason::WrapperNested,
        _ => return None,
    })
}

/// The reason of a listing with this number.
fn text_reason_of(number: u32) -> Option<TextReason>
    ensures { IsTextReason number result }
{
    Some(match number {
        101 => TextReason::NoMagic,
        102 => TextReason::WrapperMagic,
        103 => TextReason::BadLine,
        104 => TextReason::NumberTooLarge,
        105 => TextReason::BadIndentation,
        106 => TextReason::TooDeep,
        107 => TextReason::TooManyValues,
        108 => TextReason::Misplaced,
        _ => return None,
    })
}

/// Sets a name to that of a reason, or to no bytes if no reason has the number.
#[unsafe(no_mangle)]
pub extern "C" fn bs_reason_name(number: u32, name: &mut &'static [u8])
    ensures { Names number name.new.now }
{
    *name = match (reason_of(number), text_reason_of(number)) {
        (Some(reason), _) => reason.name().as_bytes(),
        (None, Some(reason)) => reason.name().as_bytes(),
        (None, None) => &[],
    };
}
