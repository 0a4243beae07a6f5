//! How a program uses the libraries: it walks the events of standard input and counts them, and then makes the normal form of the
//! same bytes. Begin with `describe`.
#![tactic(auto)]

ghost use Rattle.std.specs.Prelude.{◌≡◌, ℕ, List, Some, IfOk};
ghost use Rattle.example.specs.Forms.{IsNormalForm};

mod outline;

use crate::outline::{Outline, outline_of};
use bit_events::check_keeping;
use bit_fields::{Fault, Limits, ReadSource, Sink, SliceSource, VecSink};
use bit_norm::{Info, normalise};
use std::alloc::Global;
use std::process::ExitCode;

/// A sink with the normal form of the tree that bytes spell.
fn normal_form(alloc: Global, bytes: &[u8], limits: Limits) -> Result<VecSink, Fault>
    ensures { IfOk result (λ sink. (form : List ℕ)
        × ((⟦<VecSink as Sink>⟧.outgoing sink).bytes ≡ Some form)
        × IsNormalForm limits bytes.now form) }
{
    let source = SliceSource::new(bytes);
    let (written, _, form) = normalise(alloc, source, VecSink::new(alloc), limits, Info::Keep);
    written?;
    Ok(form)
}

/// The result for accepted bytes: their outline, and the length of their normal form.
fn describe(alloc: Global, bytes: &[u8], limits: Limits) -> Result<(Outline, usize), Fault> {
    let outline = outline_of(alloc, bytes, limits)?;
    let form = normal_form(alloc, bytes, limits)?;
    Ok((outline, form.bytes().len()))
}

/// Writes the result for standard input, or why it was refused, and returns the status.
fn run(rt: &HostRuntime) -> u8 {
    let limits = Limits::usual();
    let (kept, _) = check_keeping(rt.alloc(), ReadSource::new(rt.stdin()), limits);
    let told = kept.and_then(|bytes| describe(rt.alloc(), &bytes, limits));
    let written = match told {
        Ok((outline, length)) => println!(rt; "{outline}normal form of {length} bytes"),
        Err(fault) => println!(rt; "{fault}"),
    };
    if written.is_ok() && told.is_ok() {
        0
    } else {
        1
    }
}

fn main(rt: HostRuntime) -> ExitCode {
    ExitCode::from(run(&rt))
}
