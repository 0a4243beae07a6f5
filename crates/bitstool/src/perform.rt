//! Carrying out a command.

ghost use Rattle.std.specs.Prelude.{◌≡◌, ◌≤◌, ◌^◌, ℕ, List, IfOk, string_bytes};
ghost use Rattle.bitstool.specs.declared.outcome.Outcome.{Outcome as OutcomeValue};
ghost use Rattle.bitstool.specs.declared.task.Explain.{Explain as ExplainValue};
ghost use Rattle.bitstool.specs.declared.task.Task.{Task as TaskValue};
ghost use Rattle.bitstool.specs.Performing.{ComparesParts, Judges, TellsDifference, TellsFound, outcome_found, Settles, TellsLine, outcome_of_assembling, outcome_of_writing, outcome_in, outcome_of};
ghost use Rattle.bit_norm.specs.Entries.{difference_shown};
ghost use Rattle.bitstool.specs.Differences.{different_text, same_text};
ghost use Rattle.bitstool.specs.JsonDifferences.{IsDifferenceLine};
ghost use Rattle.bitstool.specs.LeftOut.{setting_for};
ghost use Rattle.bitstool.specs.Runs.{Does, TakesInput};
ghost use Rattle.bitstool.specs.Outcome.{status_of};

use crate::devices::{Flush, put_all};
use crate::differences::text_of;
use crate::json_differences::json_of;
use crate::outcome::Outcome;
use crate::task::{Explain, LeftOut, Task};
use bit_events::check;
use bit_fields::{Fault, Limits, Sink, Source};
use bit_norm::{Difference, Which, first_difference_in_parts, normalise};
use bit_scan::{EventStyle, Format, write_events, write_report_with_hasher, write_show};
use bit_text::{AssembleFault, assemble};
use bit_tree::Info;
use std::alloc::{AllocError, Global};
use std::hash::BuildHasher;

/// The outcome of a fault, under a limit on bytes.
fn outcome_of(limit: u64, fault: Fault) -> Outcome
    ensures { result ≡ outcome_of limit fault }
{
    match fault {
        Fault::Refused { reason, bit } => Outcome::Refused { reason, bit },
        Fault::Read => Outcome::Read,
        Fault::Write => Outcome::Write,
        Fault::Memory => Outcome::Memory,
        Fault::OutputTooLong => Outcome::TooLong { limit },
        // No call on a whole input returns this.
        Fault::Failed => Outcome::Read,
    }
}

/// The outcome of a fault of one of two inputs.
fn outcome_in(which: Which, limit: u64, fault: Fault) -> Outcome
    ensures { result ≡ outcome_in which limit fault }
{
    match fault {
        Fault::Refused { reason, bit } => Outcome::RefusedOf { which, reason, bit },
        other => outcome_of(limit, other),
    }
}

/// The outcome of writing a text, under a limit on bytes.
fn outcome_of_writing(limit: u64, answer: Result<(), Fault>) -> Outcome
    ensures { result ≡ outcome_of_writing limit answer }
{
    match answer {
        Ok(()) => Outcome::Done,
        Err(fault) => outcome_of(limit, fault),
    }
}

/// Compares the first `first` bytes of a source with the rest.
fn compare<S: Source>(
    alloc: Global,
    first: u64,
    source: S,
    limits: Limits,
    left: &LeftOut,
) -> (Result<Option<Difference>, Outcome>, S)
    ensures taken { (explain : ExplainValue)
        → TakesInput (TaskValue.Same first explain limits left.now) (S.incoming source)
        (S.incoming result.1) (outcome_found result.0) }
    ensures found { ComparesParts (setting_for left.now) limits first (S.incoming source).to_come
        result.0 }
{
    let (answer, source) = first_difference_in_parts(alloc, source, first, limits, left.info());
    match answer {
        Ok(found) => (Ok(found), source),
        Err(misread) => {
            let outcome = outcome_in(misread.which, limits.bytes(), misread.fault);
            (Err(outcome), source)
        }
    }
}

/// Judges a source.
fn judge<S: Source>(alloc: Global, source: S, limits: Limits) -> (Outcome, S)
    ensures { Judges (TaskValue.Check limits) (S.incoming source) (S.incoming result.1) result.0 }
{
    let (answer, source) = check(alloc, source, limits);
    match answer {
        Ok(()) => (Outcome::Done, source),
        Err(fault) => (outcome_of(limits.bytes(), fault), source),
    }
}

/// Writes a line as the answer.
fn tell<K: Sink>(answer: Outcome, line: &[u8], sink: &mut K) -> Outcome
    ensures { TellsLine answer line.now (K.outgoing sink.old) result (K.outgoing sink.new) }
{
    match put_all(sink, line) {
        Ok(()) => answer,
        Err(_) => Outcome::Write,
    }
}

/// Writes whether the input is accepted.
fn perform_check<S: Source, K: Sink>(
    alloc: Global,
    limits: Limits,
    source: S,
    mut sink: K,
) -> (Outcome, S, K)
    ensures { Does (TaskValue.Check limits) (S.incoming source) (S.incoming result.1)
        (K.outgoing sink) (K.outgoing result.2) result.0 }
{
    let (outcome, source) = judge(alloc, source, limits);
    let outcome = match outcome {
        Outcome::Done => tell(Outcome::Done, b"accepted\n", &mut sink),
        other => other,
    };
    (outcome, source, sink)
}

/// Writes the normal form of the input.
fn perform_normal<S: Source, K: Sink>(
    alloc: Global,
    limits: Limits,
    left: LeftOut,
    source: S,
    sink: K,
) -> (Outcome, S, K)
    ensures { Does (TaskValue.Normal limits left) (S.incoming source) (S.incoming result.1)
        (K.outgoing sink) (K.outgoing result.2) result.0 }
{
    let (answer, source, sink) = normalise(alloc, source, sink, limits, left.info());
    let outcome = match answer {
        Ok(_) => Outcome::Done,
        Err(fault) => outcome_of(limits.bytes(), fault),
    };
    (outcome, source, sink)
}

/// Writes the text that reports that two inputs differ, unless there was no memory for it.
fn tell_text<K: Sink>(text: Result<String, AllocError>, sink: &mut K) -> Outcome
    ensures { (lines : List ℕ) → IfOk text (λ made. string_bytes made ≡ lines)
        → TellsDifference lines (K.outgoing sink.old) result (K.outgoing sink.new) }
{
    match text {
        Ok(text) => tell(Outcome::Different, text.as_bytes(), sink),
        Err(AllocError) => Outcome::Memory,
    }
}

/// Writes that two inputs differ; if asked to explain, also where.
fn tell_difference<K: Sink>(
    alloc: Global,
    explain: Explain,
    difference: &Difference,
    sink: &mut K,
) -> Outcome
    ensures { TellsDifference (different_text explain (difference_shown difference.now))
        (K.outgoing sink.old) result (K.outgoing sink.new) }
{
    match explain {
        Explain::Word => tell(Outcome::Different, b"different\n", sink),
        Explain::Lines => tell_text(text_of(alloc, difference), sink),
        Explain::Json => tell_text(json_of(alloc, difference), sink),
    }
}

/// Writes that two inputs are the same. The line of JSON is one object.
#[tactic(auto, using(crate::proofs::SameLines::same_is))]
fn tell_same<K: Sink>(explain: Explain, sink: &mut K) -> Outcome
    ensures tells { TellsLine (OutcomeValue.Done) (same_text explain) (K.outgoing sink.old) result
        (K.outgoing sink.new) }
    ensures object { IsDifferenceLine (2 ^ 64) (same_text ExplainValue.Json) }
{
    match explain {
        Explain::Word => tell(Outcome::Done, b"same\n", sink),
        Explain::Lines => tell(Outcome::Done, b"same\n", sink),
        Explain::Json => tell(Outcome::Done, b"{\"kind\":\"same\"}\n", sink),
    }
}

/// Writes the result of comparing two inputs.
fn tell_found<K: Sink>(
    alloc: Global,
    explain: Explain,
    found: Result<Option<Difference>, Outcome>,
    sink: &mut K,
) -> Outcome
    ensures { TellsFound explain found (K.outgoing sink.old) result (K.outgoing sink.new) }
{
    match found {
        Ok(None) => tell_same(explain, sink),
        Ok(Some(difference)) => tell_difference(alloc, explain, &difference, sink),
        Err(outcome) => outcome,
    }
}

/// Compares the first `first` bytes of the input with the rest; if asked to explain, writes where they first differ.
fn perform_same<S: Source, K: Sink>(
    alloc: Global,
    first: u64,
    explain: Explain,
    limits: Limits,
    left: LeftOut,
    source: S,
    mut sink: K,
) -> (Outcome, S, K)
    ensures { Does (TaskValue.Same first explain limits left) (S.incoming source)
        (S.incoming result.1) (K.outgoing sink) (K.outgoing result.2) result.0 }
{
    let (found, source) = compare(alloc, first, source, limits, &left);
    let outcome = tell_found(alloc, explain, found, &mut sink);
    (outcome, source, sink)
}

/// Writes the report of the input's analysis.
fn perform_analyse<S: Source, K: Sink, H: BuildHasher + Copy>(
    alloc: Global,
    hasher: H,
    limits: Limits,
    format: Format,
    source: S,
    sink: K,
) -> (Outcome, S, K)
    ensures { Does (TaskValue.Analyse limits format) (S.incoming source) (S.incoming result.1)
        (K.outgoing sink) (K.outgoing result.2) result.0 }
{
    let (answer, source, sink) = write_report_with_hasher(
        alloc, source, sink, limits, format, hasher,
    );
    (outcome_of_writing(limits.bytes(), answer), source, sink)
}

/// Writes the listing of the part of the input that is kept under the setting.
fn perform_show<S: Source, K: Sink>(
    alloc: Global,
    limits: Limits,
    left: LeftOut,
    source: S,
    sink: K,
) -> (Outcome, S, K)
    ensures { Does (TaskValue.Show limits left) (S.incoming source) (S.incoming result.1)
        (K.outgoing sink) (K.outgoing result.2) result.0 }
{
    let (answer, source, sink) = write_show(alloc, source, sink, limits, left.info());
    (outcome_of_writing(limits.bytes(), answer), source, sink)
}

/// Writes the events of the input as they are read.
fn perform_events<S: Source, K: Sink>(
    alloc: Global,
    limits: Limits,
    style: EventStyle,
    source: S,
    sink: K,
) -> (Outcome, S, K)
    ensures { Does (TaskValue.Events limits style) (S.incoming source) (S.incoming result.1)
        (K.outgoing sink) (K.outgoing result.2) result.0 }
{
    let (answer, source, sink) = write_events(alloc, source, sink, limits, style);
    (outcome_of_writing(limits.bytes(), answer), source, sink)
}

/// The outcome of assembling a listing, under a limit on bytes.
fn outcome_of_assembling(limit: u64, answer: Result<u64, AssembleFault>) -> Outcome
    ensures { result ≡ outcome_of_assembling limit answer }
{
    match answer {
        Ok(_) => Outcome::Done,
        Err(AssembleFault::Refused { reason, line }) => Outcome::RefusedLine { reason, line },
        Err(AssembleFault::Fault(fault)) => outcome_of(limit, fault),
    }
}

/// Writes the normal form of the tree that a listing spells.
fn perform_assemble<S: Source, K: Sink>(
    alloc: Global,
    limits: Limits,
    source: S,
    sink: K,
) -> (Outcome, S, K)
    ensures { Does (TaskValue.Assemble limits) (S.incoming source) (S.incoming result.1)
        (K.outgoing sink) (K.outgoing result.2) result.0 }
{
    let (answer, source, sink) = assemble(alloc, source, sink, limits);
    (outcome_of_assembling(limits.bytes(), answer), source, sink)
}

/// Carries out a command, up to the flush.
fn carry_out<S: Source, K: Sink, H: BuildHasher + Copy>(
    alloc: Global,
    hasher: H,
    task: Task,
    source: S,
    sink: K,
) -> (Outcome, S, K)
    ensures { Does task (S.incoming source) (S.incoming result.1) (K.outgoing sink)
        (K.outgoing result.2) result.0 }
{
    match task {
        Task::Check { limits } => perform_check(alloc, limits, source, sink),
        Task::Normal { limits, left } => perform_normal(alloc, limits, left, source, sink),
        Task::Same {
            first,
            explain,
            limits,
            left,
        } => perform_same(alloc, first, explain, limits, left, source, sink),
        Task::Analyse { limits, format } => perform_analyse(
            alloc, hasher, limits, format, source, sink,
        ),
        Task::Show { limits, left } => perform_show(alloc, limits, left, source, sink),
        Task::Events { limits, style } => perform_events(alloc, limits, style, source, sink),
        Task::Assemble { limits } => perform_assemble(alloc, limits, source, sink),
    }
}

/// Flushes the output of a command that gave an answer or refused its input.
fn settle<K: Flush>(outcome: Outcome, sink: &mut K) -> Outcome
    ensures settles { Settles outcome (K.outgoing sink.old) result (K.outgoing sink.new) }
    ensures handed_on { status_of result ≤ 1 → K.handed_on sink.new }
{
    if outcome.status() > 1 {
        return outcome;
    }
    match sink.hand_on() {
        Ok(()) => outcome,
        Err(_) => Outcome::Write,
    }
}

/// Carries out a command and returns how it ended. The output is flushed if the command gave an answer or refused its input.
pub fn perform<S: Source, K: Flush, H: BuildHasher + Copy>(
    alloc: Global,
    hasher: H,
    task: Task,
    source: S,
    sink: K,
) -> (Outcome, S, K)
    ensures does { Does task (S.incoming source) (S.incoming result.1) (K.outgoing sink)
        (K.outgoing result.2) result.0 }
    ensures handed_on { status_of result.0 ≤ 1 → K.handed_on result.2 }
{
    let (outcome, source, mut sink) = carry_out(alloc, hasher, task, source, sink);
    let outcome = settle(outcome, &mut sink);
    (outcome, source, sink)
}
