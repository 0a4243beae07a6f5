//! Which widths the fields of records may have. Source: "DEFINE_ABBREV Encoding"; the greatest width is LLVM's reader's.

ghost use Rattle.std.specs.Prelude.{◌≡◌};
ghost use Rattle.bit_grammar.specs.Definition.{fixed_lawful, vbr_lawful};

/// Whether a Fixed may have this many bits.
#[inline]
pub(crate) fn is_fixed_width(width: u64) -> bool
    ensures { result ≡ fixed_lawful width }
{
    width <= 32
}

/// Whether the chunks of a VBR may have this many bits.
#[inline]
pub(crate) fn is_vbr_width(width: u64) -> bool
    ensures { result ≡ vbr_lawful width }
{
    width <= 32 && width != 1
}
