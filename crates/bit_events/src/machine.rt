ghost use Rattle.std.specs.Prelude.{◌≡◌, ◌<◌, ◌≤◌, ◌+◌, ◌-◌, ◌^◌, ◌%◌, true, [], ℕ, List, Option, OnOk, OnErr, IfOk, vec_len, length, is_none, None, IsNone, IfSome, IfNone, OnSome, IsTrue, ◌↔◌};
ghost use Rattle.std.specs.Option.{option_map};
ghost use Rattle.bit_grammar.specs.Blocks.{enter, leave};
ghost use Rattle.bit_grammar.specs.Terms.{info_for};
ghost use Rattle.bit_grammar.specs.Machine.{at_start, open_block, open_nested, step_after, step_in, step_top, step, scope_of, inside};
ghost use Rattle.bit_fields.specs.Reader.{Takes, told_by};
ghost use Rattle.bit_fields.specs.Buffered.{Reads};
ghost use Rattle.bit_fields.specs.PlacedView.{placed};
ghost use Rattle.bit_abbrev.specs.Ready.{table_of};
ghost use Rattle.bit_abbrev.specs.Values.{Gains, Has, Keeps};
ghost use Rattle.bit_events.specs.Next.{FindsNext};
ghost use Rattle.bit_events.specs.HeadView.{head_shown};
ghost use Rattle.bit_events.specs.FrameView.{info_shown, frames_shown};
ghost use Rattle.bit_events.specs.Runs.{AddsBehind, StepsHere};
ghost use Rattle.bit_events.specs.MachineView.{handed_shown, machine_shown, bit_after, step_shown, after_step, KeepsValues, record_of, innermost_head, LeavesMachine, TookSome, InBlock, end_rule, define_rule, record_rule};

use crate::event::RecordHead;
use crate::frame::{Describing, Frame, define, record_after};
use crate::head::BlockHead;
use crate::heads::{
    block_head, end_of_block, loaded_by, or_memory_fault, placed_end, placed_head, shuts,
};
use crate::running::{buffered_item, buffered_record};
use crate::with_first::WithFirst;
use bit_abbrev::{Abbrev, InForce, InfoBuilder, SharedInfo};
use bit_fields::{
    BitReader, Buffered, Fault, FieldWidth, Limits, PlacedBits, Reason, Source, ValueTaker,
};
use std::alloc::{AllocError, Global};

/// How many values may come before those of a buffered record, so that all can be counted.
const MOST_BEFORE: u64 = 1 << 63;

/// The event that one step of the machine found, without what is lent with it: the values of a record and the operands of a
/// definition. The machine holds the definition as the newest one of its block.
#[derive(Clone, Copy)]
pub(crate) enum Step {
    Enter {
        body: u64,
        first: u64,
        id: u32,
        width: u8,
    },
    Define {
        first: u64,
        after: u64,
    },
    Record(RecordHead),
    Leave {
        after: u64,
    },
}

/// The state between two events: the open blocks, the outermost first, the table for later blocks, and the number of values so far.
#[derive(Drop)]
pub(crate) struct Machine {
    pub(crate) frames: Vec<Frame>,
    pub(crate) table: SharedInfo,
    pub(crate) used: u64,
    /// Whether definitions get plans.
    pub(crate) planned: bool,
    /// The last definition that was lent, if it had to be made anew.
    pub(crate) made: Option<Abbrev>,
}

impl Step {
    /// The bit after a step at a block's beginning or end.
    #[inline(always)]
    pub(crate) fn after(self) -> u64
        ensures { result ≡ bit_after self }
    {
        match self {
            Step::Enter { body, .. } => body,
            Step::Define { after, .. } => after,
            Step::Record(head) => head.after,
            Step::Leave { after } => after,
        }
    }

    /// Whether it is a block's end.
    #[inline(always)]
    pub(crate) fn is_end(self) -> bool {
        match self {
            Step::Leave { .. } => true,
            _ => false,
        }
    }
}

impl Machine {
    /// No block is open, and nothing was read.
    pub(crate) fn new(alloc: Global, planned: bool) -> Machine
        ensures machine { machine_shown result ≡ at_start }
        ensures none { vec_len result.frames ≡ 0 }
    {
        Machine {
            frames: Vec::new(alloc),
            table: SharedInfo::new(),
            used: 0,
            planned,
            made: None,
        }
    }

    /// Opens a block that describes another one, or none.
    #[inline(always)]
    fn push(
        &mut self,
        alloc: Global,
        head: BlockHead,
        info: Option<Describing>,
    ) -> Result<(), AllocError>
        requires info { info_shown info ≡ info_for head.id }
        ensures made { OnOk result (machine_shown self.new
            ≡ inside (head_shown head) (frames_shown self.old.frames.items)
            (enter head.id (handed_shown self.old))) }
        ensures more { OnOk result (vec_len self.new.frames ≡ vec_len self.old.frames + 1) }
        ensures fewer { OnErr result (vec_len self.new.frames ≤ vec_len self.old.frames) }
    {
        // The room comes first, so that no path drops the definitions.
        self.frames.reserve(1)?;
        let definitions = self.table.enter(alloc, head.id)?;
        self.frames.push_reserved(Frame {
            head,
            definitions,
            info,
        });
        Ok(())
    }

    /// Opens a BLOCKINFO block.
    #[cold]
    #[inline(never)]
    fn enter_info(&mut self, alloc: Global, head: BlockHead) -> Result<(), AllocError>
        requires id { head.id ≡ 0 }
        ensures made { OnOk result (machine_shown self.new
            ≡ inside (head_shown head) (frames_shown self.old.frames.items)
            (enter head.id (handed_shown self.old))) }
        ensures more { OnOk result (vec_len self.new.frames ≡ vec_len self.old.frames + 1) }
        ensures fewer { OnErr result (vec_len self.new.frames ≤ vec_len self.old.frames) }
    {
        let made = InfoBuilder::new(alloc);
        let described = None;
        self.push(alloc, head, Some(Describing { described, made }))
    }

    /// Opens a block.
    fn enter(&mut self, alloc: Global, head: BlockHead) -> Result<(), AllocError>
        ensures made { OnOk result (machine_shown self.new
            ≡ inside (head_shown head) (frames_shown self.old.frames.items)
            (enter head.id (handed_shown self.old))) }
        ensures more { OnOk result (vec_len self.new.frames ≡ vec_len self.old.frames + 1) }
        ensures fewer { OnErr result (vec_len self.new.frames ≤ vec_len self.old.frames) }
    {
        if head.id == 0 {
            return self.enter_info(alloc, head);
        }
        self.push(alloc, head, None)
    }

    /// Reads a block's beginning, after its id, which began at `first`. Source: "ENTER_SUBBLOCK Encoding".
    #[cold]
    #[inline(never)]
    fn open_block<S: Source>(
        &mut self,
        alloc: Global,
        reader: &mut BitReader<S>,
        limits: &Limits,
        first: u64,
    ) -> Result<Step, Fault>
        requires { reader.old.live ≡ true }
        ensures takes { (list : List ℕ) → Takes (open_block limits.now
            (frames_shown self.old.frames.items) first (handed_shown self.old)) reader.old
            (told_by (after_step self.new list) result) reader.new }
        ensures leaves { (list : List ℕ) → IfOk result (λ step. LeavesMachine limits.now.depth
            self.old reader.old (step_shown self.new list step) self.new reader.new) }
        ensures fewer { OnErr result (vec_len self.new.frames ≤ vec_len self.old.frames) }
    {
        let fits = self.frames.len() < limits.depth() as usize;
        reader.judge(fits, Reason::TooDeep, first)?;
        let head = block_head(reader)?;
        or_memory_fault(reader, self.enter(alloc, head))?;
        Ok(Step::Enter {
            id: head.id,
            width: head.width,
            first,
            body: head.body,
        })
    }

    /// Reads the beginning of a block in a block.
    #[tactic(auto, using(crate::proofs::Stepping::nested_judged, crate::proofs::Stepping::nested_opens))]
    fn open_nested<S: Source>(
        &mut self,
        alloc: Global,
        reader: &mut BitReader<S>,
        limits: &Limits,
        first: u64,
    ) -> Result<Step, Fault>
        requires live { reader.old.live ≡ true }
        requires some { 0 < vec_len self.old.frames }
        ensures takes { (list : List ℕ) → InBlock self.old (λ f outer. Takes
            (open_nested limits.now f.head outer first (scope_of f (handed_shown self.old)))
            reader.old (told_by (after_step self.new list) result) reader.new) }
        ensures leaves { (list : List ℕ) → IfOk result (λ step. LeavesMachine limits.now.depth
            self.old reader.old (step_shown self.new list step) self.new reader.new) }
        ensures fewer { OnErr result (vec_len self.new.frames ≤ vec_len self.old.frames) }
    {
        let plain = self.is_plain();
        reader.judge(plain, Reason::NestedInBlockInfo, first)?;
        self.open_block(alloc, reader, limits, first)
    }

    /// Whether the innermost block is no BLOCKINFO block.
    #[tactic(auto, using(crate::proofs::Stepping::plain_is))]
    fn is_plain(&self) -> bool
        requires { 0 < vec_len self.now.frames }
        ensures { InBlock self.now (λ f outer. result ≡ is_none f.info) }
    {
        match self.frames.last() {
            Some(frame) => frame.info.is_none(),
            None => true,
        }
    }

    /// Reads the end of the innermost block, after its id. Source: "END_BLOCK Encoding".
    fn end_block<S: Source>(
        &mut self,
        alloc: Global,
        reader: &mut BitReader<S>,
    ) -> Result<Step, Fault>
        requires live { reader.old.live ≡ true }
        requires some { 0 < vec_len self.old.frames }
        ensures takes { (list : List ℕ) → InBlock self.old (λ f outer. Takes
            (end_rule f outer (handed_shown self.old))
            reader.old (told_by (after_step self.new list) result) reader.new) }
        ensures leaves { (deepest : ℕ) (list : List ℕ) → IfOk result
            (λ step. LeavesMachine deepest self.old reader.old (step_shown self.new list step)
            self.new reader.new) }
        ensures fewer { OnErr result (vec_len self.new.frames ≤ vec_len self.old.frames) }
    {
        let Some(frame) = self.frames.pop() else {
            unreachable!();
        };
        let after = end_of_block(reader, frame.head)?;
        or_memory_fault(reader, self.leave(alloc, frame.info))?;
        Ok(Step::Leave { after })
    }

    /// The width of the abbreviation ids that may begin or end a block here: 2 at the top, and none in a BLOCKINFO block.
    #[inline(always)]
    fn id_width(&self) -> Option<u32>
        ensures inside { IfSome result (λ width. InBlock self.now (λ f outer.
            (f.info ≡ None) × (width ≡ f.head.width))) }
        ensures top { IfSome result (λ width. vec_len self.now.frames ≡ 0 → width ≡ 2) }
        ensures least { IfSome result (λ width. 1 ≤ width) }
        ensures most { IfSome result (λ width. width ≤ 32) }
    {
        match self.frames.last() {
            None => Some(2),
            Some(frame) => {
                if frame.info.is_some() {
                    return None;
                }
                Some(u32::from(frame.head.width))
            }
        }
    }

    /// Opens a block whose beginning is at `first`; the bits are those after its id. It is no BLOCKINFO block. The reader has loaded the
    /// bits up to `held` with that id.
    #[inline(always)]
    fn open_placed(
        &mut self,
        alloc: Global,
        bits: PlacedBits<'_>,
        held: u64,
        loaded: &mut u64,
        limits: &Limits,
        first: u64,
    ) -> Result<Option<Step>, AllocError>
        requires { 160 ≤ length (placed bits).bits }
        ensures { IfOk result (λ found. StepsHere (open_block limits.now
            (frames_shown self.old.frames.items) first (handed_shown self.old)) limits.now.depth
            self.old (placed bits.entry) found self.new) }
    {
        if self.frames.len() >= limits.depth() as usize {
            return Ok(None);
        }
        let Some((head, held)) = placed_head(bits, held) else {
            return Ok(None);
        };
        *loaded = held;
        self.push(alloc, head, None)?;
        Ok(Some(Step::Enter {
            id: head.id,
            width: head.width,
            first,
            body: head.body,
        }))
    }

    /// Ends the innermost block; the bits are those after the id, with which the reader has loaded those up to `held`.
    #[inline(always)]
    fn end_placed(&mut self, bits: PlacedBits<'_>, held: u64, loaded: &mut u64) -> Option<Step>
        requires { 160 ≤ length (placed bits).bits }
        ensures steps { (deepest : ℕ) → InBlock self.old (λ f outer. f.info ≡ None
            → StepsHere (end_rule f outer (handed_shown self.old)) deepest self.old
            (placed bits.entry) result self.new) }
        ensures outside { vec_len self.old.frames ≡ 0 → IsNone result }
        ensures stays { IfNone result (self.new ≡ self.old) }
        ensures moves { IfSome result (λ step. (placed bits.entry).position ≤ bit_after step) }
    {
        let frame = self.frames.last()?;
        let (after, held) = placed_end(bits, frame.head, held)?;
        *loaded = held;
        let Some(_frame) = self.frames.pop() else {
            unreachable!();
        };
        Some(Step::Leave { after })
    }

    /// Finds the beginning or the end of a block in placed bits, of which 192 are there. `None` leaves what comes to the exact reader, and
    /// the machine as it was: another item, one in a BLOCKINFO block, a block whose id or width takes more than one chunk, and what
    /// breaks a rule. `loaded` is up to which bit that reader has loaded bytes.
    #[inline(always)]
    pub(crate) fn placed_block(
        &mut self,
        alloc: Global,
        bits: PlacedBits<'_>,
        loaded: &mut u64,
        limits: &Limits,
    ) -> Result<Option<Step>, AllocError>
        requires { 192 ≤ length (placed bits).bits }
        ensures steps { IfOk result (λ found. StepsHere (step limits.now (machine_shown self.old))
            limits.now.depth self.old (placed bits.entry) found self.new) }
        ensures moves { IfOk result (λ found. IfSome found (λ step. (placed bits.entry).position
            < bit_after step)) }
    {
        let Some(width) = self.id_width() else {
            return Ok(None);
        };
        let first = bits.position();
        let id = bits.fixed(width);
        if id > 1 {
            return Ok(None);
        }
        let held = loaded_by(first, u64::from(width), *loaded);
        let after = bits.after(u64::from(width));
        if id == 1 {
            return self.open_placed(alloc, after, held, loaded, limits, first);
        }
        Ok(self.end_placed(after, held, loaded))
    }

    /// Drops the open blocks. The input is not read on.
    pub(crate) fn drop_blocks(&mut self)
        ensures { vec_len self.new.frames ≡ 0 }
    {
        self.frames.clear();
    }

    /// Takes the table that a BLOCKINFO block made.
    fn leave(&mut self, alloc: Global, info: Option<Describing>) -> Result<(), AllocError>
        ensures made { OnOk result (machine_shown self.new
            ≡ record {
              frames = frames_shown self.old.frames.items;
              handed = leave (info_shown info) (handed_shown self.old);
            }) }
        ensures frames { self.new.frames ≡ self.old.frames }
    {
        match info {
            Some(info) => {
                self.table = SharedInfo::share(alloc, info.made)?;
                Ok(())
            }
            None => Ok(()),
        }
    }

    /// Reads a definition in the innermost block, after its id, which began at `first`.
    fn define<S: Source>(
        &mut self,
        alloc: Global,
        reader: &mut BitReader<S>,
        limits: &Limits,
        first: u64,
    ) -> Result<Step, Fault>
        requires live { reader.old.live ≡ true }
        requires some { 0 < vec_len self.old.frames }
        ensures takes { (list : List ℕ) → InBlock self.old (λ f outer. Takes
            (define_rule limits.now.shapes f outer first (handed_shown self.old))
            reader.old (told_by (after_step self.new list) result) reader.new) }
        ensures leaves { (deepest : ℕ) (list : List ℕ) → IfOk result
            (λ step. LeavesMachine deepest self.old reader.old (step_shown self.new list step)
            self.new reader.new) }
        ensures fewer { OnErr result (vec_len self.new.frames ≤ vec_len self.old.frames) }
    {
        let Some(frame) = self.frames.last_mut() else {
            unreachable!();
        };
        let after = define(alloc, reader, limits.shapes(), frame, self.planned, first)?;
        Ok(Step::Define { first, after })
    }

    /// How many more values the limit allows.
    #[inline(always)]
    pub(crate) fn room(&self, limits: &Limits) -> u64
        ensures room { result ≡ limits.now.values - self.now.used }
        ensures capped { limits.now.values ≤ 4294967295 }
        ensures used { self.now.used < 2 ^ 64 }
    {
        limits.values().saturating_sub(self.used)
    }

    /// Reads a record in the innermost block, after its id, which began at `first`, and returns its code and the bit after it.
    pub(crate) fn note<S: Source, V: ValueTaker>(
        &mut self,
        reader: &mut BitReader<S>,
        limits: &Limits,
        id: u32,
        first: u64,
        values: &mut WithFirst<V>,
    ) -> Result<(u64, u64), Fault>
        requires live { reader.old.live ≡ true }
        requires some { 0 < vec_len self.old.frames }
        requires id { 3 ≤ id }
        requires took { TookSome V.took values.old.taker }
        ensures takes { Has V.took values.new.taker (λ list. InBlock self.old (λ f outer.
            Takes (record_rule limits.now.values f outer first id (handed_shown self.old))
            reader.old
            (told_by (λ read. (record_of id list first read, machine_shown self.new)) result)
            reader.new)) }
        ensures leaves { (deepest : ℕ) (list : List ℕ)
            → IfOk result (λ read. LeavesMachine deepest self.old reader.old
            (record_of id list first read) self.new reader.new) }
        ensures fewer { OnErr result (vec_len self.new.frames ≤ vec_len self.old.frames) }
    {
        let room = self.room(limits);
        values.clear();
        let Some(frame) = self.frames.last_mut() else {
            unreachable!();
        };
        let (code, after) = record_after(reader, frame, room, values, id, first)?;
        let count = values.taker.count();
        self.used += count;
        Ok((code, after))
    }

    /// Like `note`, but reads a completely buffered record from the buffer, unless it is in a BLOCKINFO block.
    fn record_from_buffer<S: Source, V: ValueTaker>(
        &mut self,
        reader: &mut BitReader<S>,
        limits: &Limits,
        id: u32,
        first: u64,
        values: &mut WithFirst<V>,
    ) -> Result<(u64, u64), Fault>
        requires live { reader.old.live ≡ true }
        requires some { 0 < vec_len self.old.frames }
        requires id { 3 ≤ id }
        requires took { TookSome V.took values.old.taker }
        ensures takes { Has V.took values.new.taker (λ list. InBlock self.old (λ f outer.
            Takes (record_rule limits.now.values f outer first id (handed_shown self.old))
            reader.old (told_by (λ read. (record_of id list first read, machine_shown self.new)) result) reader.new)) }
        ensures leaves { (deepest : ℕ) (list : List ℕ)
            → IfOk result (λ read. LeavesMachine deepest self.old reader.old (record_of id list first read) self.new reader.new) }
        ensures fewer { OnErr result (vec_len self.new.frames ≤ vec_len self.old.frames) }
    {
        let Some(frame) = self.frames.last() else {
            unreachable!();
        };
        if frame.info.is_some() {
            return self.note(reader, limits, id, first, values);
        }
        let room = self.room(limits);
        values.taker.truncate(0);
        let buffered = Buffered::new(reader.buffered_parts()?);
        let start = buffered.position();
        let taker = &mut values.taker;
        let Some((code, after)) = buffered_record(
            buffered,
            &frame.definitions,
            room,
            id,
            first,
            taker,
        ) else {
            return self.note(reader, limits, id, first, values);
        };
        let count = values.taker.count();
        self.used += count;
        reader.catch_up(after - start)?;
        Ok((code, after))
    }

    /// Reads the next event from the buffer, if it is a completely buffered record and in no BLOCKINFO block, and returns it
    /// without its values. These come after the earlier values; if it returns `None`, some may have been added.
    #[inline(always)]
    pub(crate) fn buffered_step<V: ValueTaker>(
        &mut self,
        limits: &Limits,
        buffered: &mut Buffered<'_>,
        values: &mut V,
    ) -> Option<RecordHead>
        requires took { TookSome V.took values.old }
        ensures reads { IfSome result (λ read. Gains V.took values.old values.new
            (AddsBehind (λ list. Reads (step limits.now (machine_shown self.old)) buffered.old
            (record_of read.«abbrev» list read.first (read.code, read.after), machine_shown self.new)
            buffered.new))) }
        ensures open { OnSome result (0 < vec_len self.old.frames) }
        ensures frames { self.new.frames ≡ self.old.frames }
        ensures stays { IfNone result (self.new ≡ self.old) }
        ensures keeps { Keeps V.took values.old values.new }
        ensures moves { OnSome result (buffered.old.position < buffered.new.position) }
        ensures below { OnSome result (buffered.new.position < 2 ^ 64) }
    {
        let Some(frame) = self.frames.last() else {
            return None;
        };
        let before = values.count();
        if frame.info.is_some() || before > MOST_BEFORE {
            return None;
        }
        let room = self.room(limits);
        let first = buffered.position();
        let (abbrev, code) = buffered_item::<V, V>(buffered, frame, room, values)?;
        let after = buffered.position();
        self.used += values.count() - before;
        Some(RecordHead {
            abbrev,
            code,
            first,
            after,
        })
    }

    /// Reads an item other than a record in the innermost block, after its id, which began at `first`: the end of the block, a
    /// block or a definition. It is kept out of the path of records, which are far more frequent.
    #[cold]
    #[inline(never)]
    #[tactic(auto, using(crate::proofs::Stepping::after_end, crate::proofs::Stepping::after_nested, crate::proofs::Stepping::after_define))]
    pub(crate) fn step_apart<S: Source>(
        &mut self,
        alloc: Global,
        reader: &mut BitReader<S>,
        limits: &Limits,
        id: u64,
        first: u64,
    ) -> Result<Step, Fault>
        requires live { reader.old.live ≡ true }
        requires some { 0 < vec_len self.old.frames }
        requires id { id < 3 }
        ensures takes { (list : List ℕ) → InBlock self.old (λ f outer. Takes
            (step_after limits.now f.head outer first (scope_of f (handed_shown self.old)) id)
            reader.old (told_by (after_step self.new list) result) reader.new) }
        ensures leaves { (list : List ℕ) → IfOk result (λ step. LeavesMachine limits.now.depth
            self.old reader.old (step_shown self.new list step) self.new reader.new) }
        ensures fewer { OnErr result (vec_len self.new.frames ≤ vec_len self.old.frames) }
    {
        if id == 0 {
            return self.end_block(alloc, reader);
        }
        if id == 1 {
            return self.open_nested(alloc, reader, limits, first);
        }
        self.define(alloc, reader, limits, first)
    }

    /// Reads one item of the innermost block, or its end.
    fn step_in<S: Source, V: ValueTaker>(
        &mut self,
        alloc: Global,
        reader: &mut BitReader<S>,
        limits: &Limits,
        head: BlockHead,
        values: &mut WithFirst<V>,
    ) -> Result<Step, Fault>
        requires some { 0 < vec_len self.old.frames }
        requires took { TookSome V.took values.old.taker }
        ensures takes { Has V.took values.new.taker (λ list. InBlock self.old (λ f outer.
            f.head ≡ head_shown head
            → Takes (step_in limits.now f.head outer (scope_of f (handed_shown self.old)))
            reader.old (told_by (after_step self.new list) result) reader.new)) }
        ensures leaves { (list : List ℕ) → IfOk result (λ step. LeavesMachine limits.now.depth
            self.old reader.old (step_shown self.new list step) self.new reader.new) }
        ensures keeps { IfOk result (λ step. KeepsValues step values.old.taker values.new.taker) }
        ensures moves { OnOk result (reader.old.position < reader.new.position) }
        ensures fewer { OnErr result (vec_len self.new.frames ≤ vec_len self.old.frames) }
    {
        let first = reader.position();
        let id = reader.fixed(u32::from(head.width))?;
        if id < 3 {
            return self.step_apart(alloc, reader, limits, id, first);
        }
        let abbrev = id as u32;
        let (code, after) = self.record_from_buffer(reader, limits, abbrev, first, values)?;
        Ok(Step::Record(RecordHead {
            abbrev,
            code,
            first,
            after,
        }))
    }

    /// Reads the beginning of a block at the top.
    #[cold]
    #[inline(never)]
    pub(crate) fn step_top<S: Source>(
        &mut self,
        alloc: Global,
        reader: &mut BitReader<S>,
        limits: &Limits,
    ) -> Result<Step, Fault>
        requires { vec_len self.old.frames ≡ 0 }
        ensures takes { (list : List ℕ) → Takes (step_top limits.now (handed_shown self.old))
            reader.old (told_by (after_step self.new list) result) reader.new }
        ensures leaves { (list : List ℕ) → IfOk result (λ step. LeavesMachine limits.now.depth
            self.old reader.old (step_shown self.new list step) self.new reader.new) }
        ensures moves { OnOk result (reader.old.position < reader.new.position) }
        ensures fewer { OnErr result (vec_len self.new.frames ≤ vec_len self.old.frames) }
    {
        let first = reader.position();
        let id = reader.fixed(2)?;
        reader.judge(id == 1, Reason::TopLevel, first)?;
        self.open_block(alloc, reader, limits, first)
    }

    /// The head of the innermost block.
    #[tactic(auto, using(crate::proofs::Stepping::head_held))]
    pub(crate) fn innermost(&self) -> Option<BlockHead>
        ensures head { option_map head_shown result
            ≡ innermost_head (frames_shown self.now.frames.items) }
        ensures open { IfSome result (λ _. 0 < vec_len self.now.frames) }
        ensures none { IfNone result (vec_len self.now.frames ≡ 0) }
    {
        match self.frames.last() {
            Some(frame) => Some(frame.head),
            None => None,
        }
    }

    /// Takes one step: reads one item of the innermost block or its end, or a block's beginning at the top. After a record `values`
    /// has its values; another step leaves `values` as it is.
    fn step<S: Source, V: ValueTaker>(
        &mut self,
        alloc: Global,
        reader: &mut BitReader<S>,
        limits: &Limits,
        values: &mut WithFirst<V>,
    ) -> Result<Step, Fault>
        requires took { TookSome V.took values.old.taker }
        ensures takes { Has V.took values.new.taker (λ list. Takes
            (step limits.now (machine_shown self.old)) reader.old
            (told_by (after_step self.new list) result) reader.new) }
        ensures leaves { (list : List ℕ) → IfOk result (λ step. LeavesMachine limits.now.depth
            self.old reader.old (step_shown self.new list step) self.new reader.new) }
        ensures keeps { IfOk result (λ step. KeepsValues step values.old.taker values.new.taker) }
        ensures moves { OnOk result (reader.old.position < reader.new.position) }
        ensures fewer { OnErr result (vec_len self.new.frames ≤ vec_len self.old.frames) }
    {
        match self.innermost() {
            Some(head) => self.step_in(alloc, reader, limits, head, values),
            None => self.step_top(alloc, reader, limits),
        }
    }

    /// Finds the next event, or `None` if the whole input is accepted. All ways over events go on by this call where the buffered bits do not suffice. After a record
    /// `values` has its values; another event leaves `values` as it is.
    pub(crate) fn next<S: Source, V: ValueTaker>(
        &mut self,
        alloc: Global,
        reader: &mut BitReader<S>,
        limits: &Limits,
        values: &mut WithFirst<V>,
    ) -> Result<Option<Step>, Fault>
        requires live { reader.old.live ≡ true }
        requires aligned { vec_len self.old.frames ≡ 0 → reader.old.position % 8 ≡ 0 }
        requires took { TookSome V.took values.old.taker }
        ensures finds { Has V.took values.new.taker (λ list. FindsNext limits.now self.old
            reader.old list result self.new reader.new) }
        ensures keeps { IfOk result (λ found. IfSome found (λ step. KeepsValues step
            values.old.taker values.new.taker)) }
        ensures fewer { OnErr result (vec_len self.new.frames ≤ vec_len self.old.frames) }
    {
        let outside = self.is_outside();
        if shuts(reader, outside)? {
            return Ok(None);
        }
        let step = self.step(alloc, reader, limits, values)?;
        Ok(Some(step))
    }

    /// Whether no block is open.
    pub(crate) fn is_outside(&self) -> bool
        ensures { IsTrue result ↔ (vec_len self.now.frames ≡ 0) }
    {
        self.frames.is_empty()
    }
}
