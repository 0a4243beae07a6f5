//! How a record is passed over: bits to skip, and numbers whose last bits are found in a load.

ghost use Rattle.std.specs.Prelude.{◌≡◌, ◌<◌, ◌≤◌, true, slice_get};
ghost use Rattle.std.specs.Option.{ForSome};
ghost use Rattle.bit_fields.specs.Placed.{AreTopsBehind};
ghost use Rattle.bit_abbrev.specs.declared.plan.Rest.TheVariants.{Nothing, Numbers};

mod adding;
mod making;
mod passing;

pub use passing::pass_plain;

/// How many passes a plan has at most.
const MOST: usize = 6;

/// How many bits have to be there from a record's first one on: its id of 32 bits, six passes of 255 and 57 bits, 255 bits after
/// them, and a load.
pub const MARGIN: u64 = 2240;

/// Bits to skip, and then numbers in chunks of one width.
#[derive(Clone, Copy)]
struct Pass {
    skip: u8,
    count: u8,
    width: u8,
    ghost some: { 0 < count },
    ghost few: { count ≤ 4 },
    ghost least: { 2 ≤ width },
    ghost most: { width ≤ 32 },
}

/// Passes, and the bits after the last one.
#[derive(Clone, Copy)]
struct Passes {
    pass: [Pass; MOST],
    count: u8,
    after: u8,
    ghost most: { count ≤ 6 },
    ghost loaded: { ForSome (slice_get pass 0) (λ first. first.skip < 64) },
}

/// What comes after the single operands.
#[derive(Clone, Copy, Debug, PartialEq, Eq)]
enum Rest {
    /// Nothing.
    Nothing,
    /// An array of numbers in chunks of six bits.
    Sixes,
    /// An array of fields of one width.
    Fields,
    /// An array of other numbers.
    Numbers,
    /// Something else: the record is read otherwise.
    Odd,
}

/// How a record of a definition is passed over.
#[derive(Clone, Copy)]
pub struct Plan {
    code: u64,
    /// The top bits of the first pass's chunks in a load that begins with what the pass skips.
    tops: u64,
    passes: Passes,
    rest: Rest,
    /// Whether there is one pass, and nothing after the single operands, as most often.
    alone: bool,
    /// The bits of an array's element: of the field, or of a chunk of the number.
    width: u8,
    /// How many values the single operands have.
    singles: u8,
    ghost begins: { ForSome (slice_get passes.pass 0) (λ first. AreTopsBehind first.width first.skip tops) },
    ghost one: { alone ≡ true → (rest ≡ Nothing) × (passes.count ≡ 1) },
    ghost least: { rest ≡ Numbers → 2 ≤ width },
    ghost most: { rest ≡ Numbers → width ≤ 32 },
}

/// A record that was passed over: the length of its fields in bits, its code and how many values it has.
#[derive(Clone, Copy)]
pub struct Passed {
    pub len: u64,
    pub code: u64,
    pub count: u64,
}
