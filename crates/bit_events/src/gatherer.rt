ghost use Rattle.std.specs.Prelude.{◌≡◌, ◌≤◌, ℕ, List, [], Some, None, OnOk, OnErr, IfOk, length, true, false};
ghost use Rattle.bit_grammar.specs.declared.op.Op.{Op};
ghost use Rattle.bit_grammar.specs.Machine.{enters, defines, notes, leaves};
ghost use Rattle.bit_fields.specs.PlacedView.{placed};
ghost use Rattle.bit_events.specs.Gathering.{Gathers};
ghost use Rattle.bit_events.specs.MachineView.{TookSome};
ghost use Rattle.bit_events.specs.Passing.{PassesRun};

use crate::passing::PassedRun;
use bit_abbrev::{Abbrev, InForce};
use bit_fields::{PlacedBits, ValueTaker};
use std::alloc::AllocError;

/// Gathers the events of a stream, one after another.
pub trait Gatherer {
    ghost use Rattle.std.specs.Prelude.{List, Option};
    ghost use Rattle.bit_grammar.specs.Machine.{Event};

    /// The value sink for the values of a record.
    type Values: ValueTaker + Drop;

    // Whether gathering these events, in order, turns the one into the other.
    ghost gathered: { Self → List Event → Self → Type 0 };

    // What a call that fails does: at an event, or `pass` at bits.
    ghost fails: { Self → Option Event → Self → Type 0 } = { λ _ _ _. Unit {0} };

    /// An empty value sink for the records.
    fn values(&self) -> Self::Values
        ensures { Self.Values.took result [] };

    /// Takes a block's beginning: its id, the width of the ids in it, its first bit, and the first bit of its body.
    fn enter(&mut self, id: u32, width: u8, first: u64, body: u64) -> Result<(), AllocError>
        ensures gathers { OnOk result (Gathers gathered self.old
            (enters (record { id = id; width = width; first = first; body = body })) self.new) }
        ensures fails { OnErr result (fails self.old
            (Some (enters (record { id = id; width = width; first = first; body = body }))) self.new) };

    /// Takes a definition as `define` does, without its operands, which are then held in fewer bytes. If it returns `false`, nothing
    /// changed, and `define` is called for it.
    #[inline(always)]
    fn defined(&mut self, _first: u64, _after: u64) -> Result<bool, AllocError>
        ensures gathers { IfOk result (λ taken. taken ≡ true → (ops : List Op) → Gathers gathered self.old
            (defines (record { ops = ops; first = _first; after = _after })) self.new) }
        ensures declines { IfOk result (λ taken. taken ≡ false → self.new ≡ self.old) }
        ensures fails { OnErr result ((ops : List Op) → fails self.old
            (Some (defines (record { ops = ops; first = _first; after = _after }))) self.new) }
    {
        Ok(false)
    }

    /// Takes a definition in the innermost block, its first bit and the bit after it.
    fn define(&mut self, abbrev: &Abbrev, first: u64, after: u64) -> Result<(), AllocError>
        ensures gathers { OnOk result (Gathers gathered self.old
            (defines (record { ops = «abbrev».now; first = first; after = after })) self.new) }
        ensures fails { OnErr result (fails self.old
            (Some (defines (record { ops = «abbrev».now; first = first; after = after }))) self.new) };

    /// Takes a record in the innermost block: its abbreviation id, its code, the value sink with its values, its first bit and the
    /// bit after it. The values may be moved out.
    fn record(
        &mut self,
        id: u32,
        code: u64,
        values: &mut Self::Values,
        first: u64,
        after: u64,
    ) -> Result<(), AllocError>
        ensures gathers { OnOk result ((list : List ℕ) → Self.Values.took values.old list
            → Gathers gathered self.old (notes
            (record {
              abbreviation = id;
              code = code;
              values = list;
              first = first;
              after = after;
            })) self.new) }
        ensures fails { OnErr result ((list : List ℕ) → Self.Values.took values.old list
            → fails self.old (Some (notes
            (record {
              abbreviation = id;
              code = code;
              values = list;
              first = first;
              after = after;
            }))) self.new) }
        ensures took { TookSome Self.Values.took values.old
            → TookSome Self.Values.took values.new };

    /// Whether `pass` is called: it may gather records without their values being read.
    #[inline(always)]
    fn passes(&self) -> bool {
        false
    }

    /// Whether `pass` goes by plans of definitions, so that they are made.
    #[inline(always)]
    fn by_plans(&self) -> bool {
        true
    }

    /// Gathers records of the innermost block which come first in these bits: as many as it likes. Their ids have this width, and
    /// they have at most `room` values.
    #[inline(always)]
    fn pass(
        &mut self,
        bits: PlacedBits<'_>,
        width: u32,
        _definitions: &InForce,
        room: u64,
    ) -> Result<PassedRun, AllocError>
        requires width { width ≤ 32 }
        ensures gathers { IfOk result (λ run. PassesRun gathered width _definitions.now.all room
            (placed bits.entry) self.old run self.new) }
        ensures fails { OnErr result (fails self.old None self.new) }
    {
        Ok(PassedRun::none(bits, room))
    }

    /// Whether `few` is called.
    #[inline(always)]
    fn takes_few(&self) -> bool {
        false
    }

    /// Takes a record as `record` does, with its values in a list: they are at most 64. If it returns `false`, nothing changed, and
    /// `record` is called for it.
    #[inline(always)]
    fn few(
        &mut self,
        _id: u32,
        _code: u64,
        _values: &[u64],
        _first: u64,
        _after: u64,
    ) -> Result<bool, AllocError>
        requires few { length _values.now ≤ 64 }
        ensures gathers { IfOk result (λ taken. taken ≡ true → Gathers gathered self.old (notes
            (record {
              abbreviation = _id;
              code = _code;
              values = _values.now;
              first = _first;
              after = _after;
            })) self.new) }
        ensures declines { IfOk result (λ taken. taken ≡ false → self.new ≡ self.old) }
        ensures fails { OnErr result (fails self.old (Some (notes
            (record {
              abbreviation = _id;
              code = _code;
              values = _values.now;
              first = _first;
              after = _after;
            }))) self.new) }
    {
        Ok(false)
    }

    /// Takes the end of the innermost block: the bit after it.
    fn leave(&mut self, after: u64) -> Result<(), AllocError>
        ensures gathers { OnOk result (Gathers gathered self.old (leaves after) self.new) }
        ensures fails { OnErr result (fails self.old (Some (leaves after)) self.new) };
}
