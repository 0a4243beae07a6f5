//! Limits on an input.

ghost use Rattle.std.specs.Prelude.{◌≡◌, false, MatchOption};
ghost use Rattle.bit_fields.specs.Opening.{PassCaps};
ghost use Rattle.bit_grammar.specs.Normal.{Capped};
ghost use Rattle.bit_c.specs.Limiting.{limits_told};

use bit_fields::Limits;

/// Limits on the bytes of the whole input, wrapper included, on the depth of blocks, with depth 1 for a block at the top, and
/// on the values of all records. Their caps are 17,179,869,180 bytes, depth 255 and 4,294,967,295 values. A flag sets whether the
/// shape of a definition is judged at its use by a record, not at the definition.
#[repr(C)]
#[derive(Clone, Copy)]
pub struct BsLimits {
    pub bytes: u64,
    pub depth: u32,
    pub values: u64,
    pub shapes_at_use: bool,
}

impl BsLimits {
    /// The limits, if none is past its cap.
    pub(crate) fn to_limits(&self) -> Option<Limits>
        ensures { MatchOption result (PassCaps (limits_told self.now))
            (λ limits. (limits ≡ limits_told self.now) × Capped limits) }
    {
        let limits = Limits::new(self.bytes, self.depth, self.values)?;
        if self.shapes_at_use {
            Some(limits.shapes_at_use())
        } else {
            Some(limits)
        }
    }
}

/// Sets limits that suit most inputs: 1 GiB, depth 64, 134,217,728 values. Shapes are judged at the definition.
#[unsafe(no_mangle)]
pub extern "C" fn bs_usual_limits(limits: &mut BsLimits)
    ensures { limits.new ≡ record {
      bytes = 1073741824;
      depth = 64;
      values = 134217728;
      shapes_at_use = false;
    } }
{
    let usual = Limits::usual();
    *limits = BsLimits {
        bytes: usual.bytes(),
        depth: usual.depth(),
        values: usual.values(),
        shapes_at_use: false,
    };
}
