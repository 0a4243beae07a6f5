ghost use Rattle.std.specs.Prelude.{◌≡◌, ℕ, ◌+◌, ◌<◌, ◌≤◌, ◌↔◌, Bool, List, [], ◌++◌, length, Ok};
ghost use Rattle.bit_grammar.specs.Grammar.{Fault, Spells};
ghost use Rattle.bit_grammar.specs.Marks.{Item, Marks, marks_of, depth_in, values_in};
ghost use Rattle.bit_grammar.specs.Blocks.{Limits};
ghost use Rattle.bit_grammar.specs.Whole.{SpellsAll, StopsAll};
ghost use Rattle.bit_grammar.specs.FormatInput.{AreMarkedBlocks};
ghost use Rattle.bit_grammar.specs.Input.{top_blocks, SpellsInput, BreaksInput};
ghost use Rattle.bit_grammar.specs.Terms.{Head, Marked};
ghost use Rattle.bit_grammar.specs.Machine.{Event, flat, Machine, at_start, step, Ending, accepted, broke, to_come};
ghost use Rattle.bit_grammar.specs.Steps.{AreWide, Steps, Leads, open_after, MayStand, IsNested, EndsNested, values_told, all_values_told};
ghost use Rattle.bit_grammar.specs.Outlook.{outlook, EndsBy};
ghost use Rattle.bit_grammar.specs.Happening.{HasEvents};

/// The remaining events are those of the steps that succeed, one after another, up to the end or to the step that breaks.
pub fn steps_to_come()
    ensures { (limits : Limits) (m : Machine) (p : ℕ) (r : List Bool) (events : List Event)
        (ending : Ending) → AreWide m.frames
        → (Steps limits m p r events ending ↔ (to_come limits m p r ≡ (events, ending))) }
{}

/// The steps of a stream that is accepted are the events of its blocks, and of no other stream; and a stream breaks with the fault
/// of its steps.
pub fn steps_of_blocks()
    ensures accepted { (limits : Limits) (p : ℕ) (r : List Bool) (events : List Event) (q : ℕ)
        → (Steps limits at_start p r events (accepted q)
        ↔ ((v : List Item × ℕ) × SpellsAll (top_blocks limits) p r v
        × (events ≡ flat (marks_of v.0) []) × (q ≡ v.1))) }
    ensures broken { (limits : Limits) (p : ℕ) (r : List Bool) (fault : Fault)
        → (StopsAll (top_blocks limits) p r fault
        ↔ ((events : List Event) × Steps limits at_start p r events (broke fault))) }
{}

/// A step takes bits, and the ids of each block that is open after it have a width.
pub fn bits_of_step()
    ensures { (limits : Limits) (m new : Machine) (p : ℕ) (s : List Bool) (event : Event)
        → AreWide m.frames
        → Spells (step limits m) p s (event, new) → (0 < length s) × AreWide new.frames }
{}

/// There is a frame for each open block: one more after a block begins, one less after it ends, and never more than the limit on
/// depth.
pub fn frames_of_step()
    ensures { (limits : Limits) (m new : Machine) (p : ℕ) (s : List Bool) (event : Event)
        → Spells (step limits m) p s (event, new)
        → MayStand limits.depth event (length m.frames)
        × (length new.frames ≡ open_after event (length m.frames))
        × (length m.frames ≤ limits.depth → length new.frames ≤ limits.depth) }
{}

/// A step uses as many values as its record has, within the limit on values.
pub fn values_of_step()
    ensures { (limits : Limits) (m new : Machine) (p : ℕ) (s : List Bool) (event : Event)
        → Spells (step limits m) p s (event, new)
        → (new.handed.used ≡ m.handed.used + values_told event)
        × (m.handed.used ≤ limits.values → new.handed.used ≤ limits.values) }
{}

/// Events with others after them are those of the steps up to another machine, and of the steps from there.
pub fn steps_in_parts()
    ensures { (limits : Limits) (m : Machine) (p : ℕ) (r : List Bool) (events others : List Event)
        (ending : Ending)
        → (Steps limits m p r (events ++ others) ending
        ↔ ((first rest : List Bool) × (new : Machine) × (r ≡ first ++ rest)
        × Leads limits m p first events new
        × Steps limits new (p + length first) rest others ending)) }
{}

/// After some steps there is a frame for each block that their events leave open, the values used are those of their records,
/// within the limit, and the ids of each open block have a width.
pub fn machine_after()
    ensures kept { (limits : Limits) (m new : Machine) (p : ℕ) (s : List Bool) (events : List Event)
        → Leads limits m p s events new
        → IsNested limits.depth (length m.frames) events (length new.frames)
        × (new.handed.used ≡ m.handed.used + all_values_told events)
        × (m.handed.used ≤ limits.values → new.handed.used ≤ limits.values) }
    ensures wide { (limits : Limits) (m new : Machine) (p : ℕ) (s : List Bool) (events : List Event)
        → AreWide m.frames
        → Leads limits m p s events new → AreWide new.frames }
{}

/// The events of a stream are well nested, at most as deep as the limit, and if it is accepted no block is left open.
pub fn nested_events()
    ensures { (limits : Limits) (p : ℕ) (r : List Bool) (events : List Event) (ending : Ending)
        → Steps limits at_start p r events ending
        → EndsNested limits.depth 0 events ending }
{}

/// The records of a stream, also of one that breaks, have no more values than the limit.
pub fn values_of_events()
    ensures { (limits : Limits) (p : ℕ) (r : List Bool) (events : List Event) (ending : Ending)
        → Steps limits at_start p r events ending
        → all_values_told events ≤ limits.values }
{}

/// Marked items with the same events are the same.
pub fn marks_by_events()
    ensures { (a b : Marks) → flat a [] ≡ flat b [] → a ≡ b }
{}

/// An input spells a marked tree exactly if its outlook is the head, the events of the tree and acceptance; and it breaks with a
/// fault exactly if its outlook ends with that fault.
pub fn told_of_input()
    ensures spelled { (limits : Limits) (bytes : List ℕ) (m : Marked)
        → (SpellsInput limits bytes m
        ↔ (outlook limits bytes ≡ Ok (m.head, (flat m.blocks [], accepted m.after)))) }
    ensures broken { (limits : Limits) (bytes : List ℕ) (fault : Fault)
        → (BreaksInput limits bytes fault ↔ EndsBy (outlook limits bytes) fault) }
{}

/// The events in the outlook of an input are those of the steps of its stream, after its head, whatever ends them.
pub fn events_of_bytes()
    ensures { (limits : Limits) (bytes : List ℕ) (head : Head) (events : List Event)
        → (HasEvents limits bytes head events
        ↔ ((ending : Ending) × (outlook limits bytes ≡ Ok (head, (events, ending))))) }
{}

/// The events of an input are well nested, at most as deep as the limit, and their records have no more values than the limit; and
/// if it is accepted no block is left open.
pub fn nested_input()
    ensures kept { (limits : Limits) (bytes : List ℕ) (head : Head) (events : List Event)
        → HasEvents limits bytes head events
        → ((left : ℕ) × (left ≤ limits.depth) × IsNested limits.depth 0 events left)
        × (all_values_told events ≤ limits.values) }
    ensures accepted { (limits : Limits) (bytes : List ℕ) (m : Marked) → SpellsInput limits bytes m
        → IsNested limits.depth 0 (flat m.blocks []) 0 }
{}

/// The events of marked blocks are nested as deep as the blocks, and their records have the values of the blocks.
pub fn events_of_marks()
    ensures nested { (deepest : ℕ) (marks : Marks) → AreMarkedBlocks marks
        → depth_in marks ≤ deepest → IsNested deepest 0 (flat marks []) 0 }
    ensures values { (marks : Marks) (following : List Event)
        → all_values_told (flat marks following) ≡ values_in marks + all_values_told following }
{}
