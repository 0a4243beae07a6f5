ghost use Rattle.std.specs.Prelude.{◌≡◌, MatchOption};
ghost use Rattle.bit_grammar.specs.declared.shapes.Shapes.TheVariants.{AtDefinition, AtUse};
ghost use Rattle.bit_grammar.specs.Blocks.{judged_at};
ghost use Rattle.bit_grammar.specs.Normal.{usual_limits, Capped};
ghost use Rattle.bit_fields.specs.Opening.{PassCaps};

use bit_grammar::{MOST_BYTES, MOST_DEPTH, MOST_VALUES, Shapes};
use std::marker::Model;

/// How much of an input is read, and where the shapes of its definitions are judged. Zero is allowed for each number.
#[derive(Clone, Copy, Debug, PartialEq, Eq)]
pub struct Limits {
    bytes: u64,
    depth: u32,
    values: u64,
    shapes: Shapes,
}

impl Model for Limits {
    ghost use Rattle.bit_grammar.specs.Blocks.{Limits as Told};
    ghost use Rattle.bit_grammar.specs.Normal.{Capped};

    ghost Value = { Told };

    ghost view = { λ l. record {
      bytes = l.bytes;
      depth = l.depth;
      values = l.values;
      shapes = l.shapes;
    } };

    ghost invariant = { λ l. Capped (record {
      bytes = l.bytes;
      depth = l.depth;
      values = l.values;
      shapes = l.shapes;
    }) };

    ghost inverse = { λ l. record {
      bytes = l.bytes;
      depth = l.depth;
      values = l.values;
      shapes = l.shapes;
    } };
}

impl Limits {
    /// Limits on the bytes of the whole input, wrapper included, on the depth of blocks (a block at the top has depth 1), and on
    /// the values of all records. `None` if one is past its cap: 17,179,869,180 bytes, depth 255, 4,294,967,295 values. Shapes are
    /// judged at the definition.
    pub fn new(bytes: u64, depth: u32, values: u64) -> Option<Limits>
        ensures { MatchOption result (PassCaps
            (record { bytes = bytes; depth = depth; values = values; shapes = AtDefinition }))
            (λ limits. (limits ≡ record {
              bytes = bytes;
              depth = depth;
              values = values;
              shapes = AtDefinition;
            }) × Capped limits) }
    {
        if bytes <= MOST_BYTES && depth <= MOST_DEPTH && values <= MOST_VALUES {
            Some(Limits {
                bytes,
                depth,
                values,
                shapes: Shapes::AtDefinition,
            })
        } else {
            None
        }
    }

    /// The limits that serve most inputs: 1 GiB, depth 64, 134,217,728 values. Shapes are judged at the definition.
    pub fn usual() -> Limits
        ensures usual { result ≡ usual_limits }
        ensures capped { Capped result }
    {
        Limits {
            bytes: 1_073_741_824,
            depth: 64,
            values: 134_217_728,
            shapes: Shapes::AtDefinition,
        }
    }

    /// The same limits, but the shape of a definition is judged when a record uses it.
    pub fn shapes_at_use(self) -> Limits
        ensures at_use { result ≡ judged_at AtUse self }
        ensures capped { Capped result }
    {
        Limits {
            shapes: Shapes::AtUse,
            ..self
        }
    }

    /// The limit on the bytes of the whole input.
    pub fn bytes(self) -> u64
        ensures bytes { result ≡ self.bytes }
        ensures capped { Capped self }
    {
        self.bytes
    }

    /// The limit on the depth of blocks.
    pub fn depth(self) -> u32
        ensures depth { result ≡ self.depth }
        ensures capped { Capped self }
    {
        self.depth
    }

    /// The limit on the values of all records.
    pub fn values(self) -> u64
        ensures values { result ≡ self.values }
        ensures capped { Capped self }
    {
        self.values
    }

    /// Where the shapes of definitions are judged.
    pub fn shapes(self) -> Shapes
        ensures { result ≡ self.shapes }
    {
        self.shapes
    }
}
