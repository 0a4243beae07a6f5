ghost use Rattle.std.specs.Prelude.{◌≡◌, ℕ, ◌^◌, ◌<◌, List};
ghost use Rattle.bit_grammar.specs.Blocks.{Limits};
ghost use Rattle.bit_grammar.specs.Input.{SpellsInput};
ghost use Rattle.bit_grammar.specs.Terms.{Marked};
ghost use Rattle.bit_grammar.specs.Machine.{Event};
ghost use Rattle.bit_grammar.specs.Outlook.{Outlook, outlook};
ghost use Rattle.bit_grammar.specs.declared.value_display.ValueDisplay.{ValueDisplay};
ghost use Rattle.bit_grammar.specs.declared.value_display.ValueDisplay.TheVariants.{Shown};
ghost use Rattle.bit_grammar.specs.Normal.{Capped};
ghost use Rattle.bit_grammar.specs.Tally.{Tally, tally_of};
ghost use Rattle.bit_scan.specs.EventLines.{EventFits, OutlookFits, ReportFits, line_tells};
ghost use Rattle.bit_scan.specs.ObjectLines.{AreObjectLines, IsObjectLine};
ghost use Rattle.bit_scan.specs.Styles.{event_as, outlook_as, report_as};
ghost use Rattle.bit_scan.specs.declared.format.Format.TheVariants.{JsonLines};

/// Under limits within their caps each number of an input fits 64 bits: those of its events and of its fault, and if it is accepted
/// those of its report.
pub fn numbers_fit()
    ensures told { (limits : Limits) (bytes : List ℕ) → Capped limits
        → OutlookFits (2 ^ 64) (outlook limits bytes) }
    ensures report { (limits : Limits) (bytes : List ℕ) (m : Marked) → Capped limits
        → SpellsInput limits bytes m → ReportFits (2 ^ 64) (tally_of m) }
{}

/// Each line that `events` and `analyse` write of an input as JSON is one object in the grammar of specs/ObjectLines.antt with
/// numbers of 64 bits, and an event is one line. The numbers of a line are below each bound that those of the event, the outlook or
/// the report keep to. Where these have 64 bits and values are shown, the line of an event determines all of it but the bit after a
/// record or a definition.
pub fn json_lines()
    ensures event { (bound : ℕ) (values : ValueDisplay) (around : ℕ) (event : Event) → around < bound
        → EventFits bound event → IsObjectLine bound (event_as JsonLines values around event) }
    ensures events { (bound : ℕ) (values : ValueDisplay) (told : Outlook) → OutlookFits bound told
        → AreObjectLines bound (outlook_as JsonLines values told) }
    ensures report { (bound : ℕ) (tally : Tally) → ReportFits bound tally
        → AreObjectLines bound (report_as JsonLines tally) }
    ensures input { (limits : Limits) (values : ValueDisplay) (bytes : List ℕ) → Capped limits
        → AreObjectLines (2 ^ 64) (outlook_as JsonLines values (outlook limits bytes)) }
    ensures analysis { (limits : Limits) (bytes : List ℕ) (m : Marked) → Capped limits
        → SpellsInput limits bytes m
        → AreObjectLines (2 ^ 64) (report_as JsonLines (tally_of m)) }
    ensures told { (around other : ℕ) (a b : Event) → around < 2 ^ 64 → other < 2 ^ 64
        → EventFits (2 ^ 64) a → EventFits (2 ^ 64) b
        → event_as JsonLines Shown around a ≡ event_as JsonLines Shown other b
        → line_tells a ≡ line_tells b }
{}
