//! Value sinks that keep the values of a record.

use crate::packed::PackedValues;
use crate::values::ValueTaker;
use std::alloc::Global;

/// A value sink that keeps its values.
pub trait ValueKeeper: ValueTaker + Drop {
    ghost use Rattle.std.specs.Prelude.{◌≡◌, ℕ, List, []};

    // The values that it keeps.
    ghost kept: { Self → List ℕ };

    /// No values. It allocates nothing.
    fn empty(alloc: Global) -> Self
        ensures { kept result ≡ [] };

    ghost took_kept: { (keeper : Self) → Self.took keeper (kept keeper) };

    ghost kept_took: { (keeper : Self) (values : List ℕ) → Self.took keeper values
        → kept keeper ≡ values };
}

/// As numbers.
impl ValueKeeper for Vec<u64> {
    ghost use Rattle.std.specs.Prelude.{refl};

    ghost kept = { λ v. v.items };

    ghost took_kept = { λ v. refl };

    ghost kept_took = { λ v values e. e };

    fn empty(alloc: Global) -> Vec<u64> {
        Vec::new(alloc)
    }
}

impl ValueKeeper for PackedValues {
    ghost use Rattle.std.specs.Prelude.{refl};

    ghost kept = { λ v. v };

    ghost took_kept = { λ v. refl };

    ghost kept_took = { λ v values e. e };

    fn empty(alloc: Global) -> PackedValues {
        PackedValues::new(alloc)
    }
}
