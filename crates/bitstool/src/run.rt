//! The whole program, over any devices.

ghost use Rattle.std.specs.Prelude.{◌≡◌, ◌≤◌, ◌++◌, [], OnOk, map, string_bytes};
ghost use Rattle.bit_grammar.specs.Setting.{keep};
ghost use Rattle.bit_grammar.specs.Normal.{usual_limits};
ghost use Rattle.bitstool.specs.declared.task.LeftOut.{LeftOut as LeftOutValue};
ghost use Rattle.bitstool.specs.declared.task.Parsed.{Parsed as ParsedValue};
ghost use Rattle.bitstool.specs.declared.task.Task.{Task as TaskValue};
ghost use Rattle.bitstool.specs.LeftOut.{setting_for};
ghost use Rattle.bitstool.specs.Outcome.{line_of, status_of};
ghost use Rattle.bitstool.specs.Performing.{PutsAll};
ghost use Rattle.bitstool.specs.Runs.{Helps, Runs, TellsCommand, TellsOutcome, WritesOutput};
ghost use Rattle.bitstool.specs.Words.{Says, help_last};

use crate::beginning::{Beginning, look_at};
use crate::devices::{Flush, put_all};
use crate::outcome::Outcome;
use crate::parse::parse;
use crate::perform::perform;
use crate::task::{LeftOut, Parsed, Task};
use crate::tips::tip_of;
use bit_fields::{Limits, Shapes, Sink, SinkFailed, Source, SourceFailed};
use std::alloc::Global;
use std::hash::{BuildHasher, BuildHasherDefault, FoldHasher};

/// The result of a run: its exit status, and the devices.
#[derive(Debug, Drop)]
pub struct Ran<S, K> {
    pub status: u8,
    pub source: S,
    pub sink: K,
}

/// Writes a whole text, and flushes it.
fn put_help<K: Flush>(sink: &mut K, text: &[u8]) -> Result<(), SinkFailed>
    ensures puts { PutsAll text.now (K.outgoing sink.old) result (K.outgoing sink.new) }
    ensures handed_on { OnOk result (K.handed_on sink.new) }
{
    put_all(sink, text)?;
    sink.hand_on()
}

/// Writes a help text.
fn help<K: Flush>(sink: &mut K, text: &[u8]) -> Outcome
    ensures helps { Helps text.now (K.outgoing sink.old) (K.outgoing sink.new) result }
    ensures handed_on { status_of result ≤ 1 → K.handed_on sink.new }
{
    match put_help(sink, text) {
        Ok(()) => Outcome::Done,
        Err(_) => Outcome::Write,
    }
}

/// Writes a text to the errors. A failure there changes nothing.
fn put_on_errors<K: Sink>(errors: &mut K, text: &[u8])
    ensures { WritesOutput text.now (K.outgoing errors.old) (K.outgoing errors.new) }
{
    let _ = put_all(errors, text);
}

/// Writes to the errors how the run ended, and returns the status. A failure there changes nothing.
fn tell<K: Sink>(outcome: Outcome, errors: &mut K) -> u8
    ensures { TellsOutcome outcome result (K.outgoing errors.old) (K.outgoing errors.new) }
{
    let _ = outcome.report(errors);
    outcome.status()
}

/// Writes to the errors how a command ended, with a tip.
fn report_with_tip<K: Sink>(outcome: Outcome, tip: &str, errors: &mut K) -> Result<(), SinkFailed>
    ensures { PutsAll (line_of outcome ++ tip.now) (K.outgoing errors.old) result
        (K.outgoing errors.new) }
{
    outcome.report(errors)?;
    put_all(errors, tip.as_bytes())
}

/// The same, by what its input begins like, and returns the status. A failure there changes nothing.
fn tell_command<K: Sink>(
    shapes: Shapes,
    beginning: Beginning,
    outcome: Outcome,
    errors: &mut K,
) -> u8
    ensures { TellsCommand shapes beginning outcome result (K.outgoing errors.old)
        (K.outgoing errors.new) }
{
    let _ = report_with_tip(outcome, tip_of(shapes, beginning, outcome), errors);
    outcome.status()
}

/// Carries out a command.
fn obey_task<S: Source, K: Flush, E: Sink, H: BuildHasher + Copy>(
    alloc: Global,
    hasher: H,
    task: Task,
    mut source: S,
    sink: K,
    errors: &mut E,
) -> Ran<S, K>
    ensures runs { Runs (ParsedValue.Task task) (S.incoming source) (S.incoming result.source) (K.outgoing sink)
        (K.outgoing result.sink)
        (E.outgoing errors.old) (E.outgoing errors.new) result.status }
    ensures handed_on { result.status ≤ 1 → K.handed_on result.sink }
{
    let shapes = task.limits().shapes();
    match look_at(&mut source, task.most_shown()) {
        Ok(beginning) => {
            let (outcome, source, sink) = perform(alloc, hasher, task, source, sink);
            let status = tell_command(shapes, beginning, outcome, errors);
            Ran {
                status,
                source,
                sink,
            }
        }
        Err(SourceFailed) => {
            let status = tell(Outcome::Read, errors);
            Ran {
                status,
                source,
                sink,
            }
        }
    }
}

/// Does what the arguments ask for.
fn obey<S: Source, K: Flush, E: Sink, H: BuildHasher + Copy>(
    alloc: Global,
    hasher: H,
    parsed: Parsed,
    source: S,
    mut sink: K,
    errors: &mut E,
) -> Ran<S, K>
    ensures runs { Runs parsed (S.incoming source) (S.incoming result.source) (K.outgoing sink)
        (K.outgoing result.sink)
        (E.outgoing errors.old) (E.outgoing errors.new) result.status }
    ensures handed_on { result.status ≤ 1 → K.handed_on result.sink }
{
    match parsed {
        Parsed::Task(task) => obey_task(alloc, hasher, task, source, sink, errors),
        Parsed::Help(text) => {
            let outcome = help(&mut sink, text.as_bytes());
            let status = tell(outcome, errors);
            Ran {
                status,
                source,
                sink,
            }
        }
        Parsed::Usage(text) => {
            put_on_errors(errors, text.as_bytes());
            let status = Outcome::Usage.status();
            Ran {
                status,
                source,
                sink,
            }
        }
        Parsed::Memory => {
            let status = tell(Outcome::Memory, errors);
            Ran {
                status,
                source,
                sink,
            }
        }
    }
}

/// The whole program on these arguments, which exclude its name. It reads its input from the source, writes its output to the sink,
/// and writes one line to the errors if it refuses the input or fails. The status is 0 if it succeeds or finds two inputs the same,
/// 1 if it refuses an input or finds two inputs different, 2 if the arguments are no command, and 3 if the source or the sink
/// fails or memory runs out. The rows of an analysis are found by the hasher.
pub fn run_with_hasher<S: Source, K: Flush, E: Sink, H: BuildHasher + Copy>(
    alloc: Global,
    hasher: H,
    words: Vec<String>,
    source: S,
    sink: K,
    errors: &mut E,
) -> Ran<S, K>
    // Without arguments it writes the normal form under the usual limits, and leaves nothing out.
    ensures plain { words.items ≡ [] → (left : LeftOutValue) × (setting_for left ≡ keep)
        × Runs (ParsedValue.Task (TaskValue.Normal usual_limits left))
        (S.incoming source) (S.incoming result.source) (K.outgoing sink) (K.outgoing result.sink)
        (E.outgoing errors.old) (E.outgoing errors.new) result.status }
    // With arguments it does what they ask for; `help` before them is `--help` behind them.
    ensures any { (words.items ≡ [] → ⊥) → (parsed : ParsedValue)
        × Says (help_last (map string_bytes words.items)) parsed
        × Runs parsed (S.incoming source) (S.incoming result.source) (K.outgoing sink)
        (K.outgoing result.sink)
        (E.outgoing errors.old) (E.outgoing errors.new) result.status }
    // The output is flushed, unless the arguments were no command or a device or an allocation failed.
    ensures handed_on { result.status ≤ 1 → K.handed_on result.sink }
{
    let parsed = if words.is_empty() {
        Parsed::Task(Task::Normal {
            limits: Limits::usual(),
            left: LeftOut::nothing(alloc),
        })
    } else {
        parse(alloc, words)
    };
    obey(alloc, hasher, parsed, source, sink, errors)
}

/// The same with the hasher of `IndexMap`, whose seed is fixed.
pub fn run<S: Source, K: Flush, E: Sink>(
    alloc: Global,
    words: Vec<String>,
    source: S,
    sink: K,
    errors: &mut E,
) -> Ran<S, K>
    ensures plain { words.items ≡ [] → (left : LeftOutValue) × (setting_for left ≡ keep)
        × Runs (ParsedValue.Task (TaskValue.Normal usual_limits left))
        (S.incoming source) (S.incoming result.source) (K.outgoing sink) (K.outgoing result.sink)
        (E.outgoing errors.old) (E.outgoing errors.new) result.status }
    ensures any { (words.items ≡ [] → ⊥) → (parsed : ParsedValue)
        × Says (help_last (map string_bytes words.items)) parsed
        × Runs parsed (S.incoming source) (S.incoming result.source) (K.outgoing sink)
        (K.outgoing result.sink)
        (E.outgoing errors.old) (E.outgoing errors.new) result.status }
    ensures handed_on { result.status ≤ 1 → K.handed_on result.sink }
{
    run_with_hasher(
        alloc,
        BuildHasherDefault::<FoldHasher>::new(),
        words,
        source,
        sink,
        errors,
    )
}
