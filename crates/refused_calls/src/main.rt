//! Makes calls of the libraries that allocate, each named by a letter on standard input, and writes how each of them ended.
//! `tests/refused_memory` makes each allocation fail.
#![tactic(auto)]

mod definitions;
mod ending;
mod forms;
mod inputs;
mod streams;
mod trees;

use crate::ending::Ending;
use std::io::Read;
use std::process::ExitCode;

/// Makes the call with this letter; there is none for other letters.
fn ask(rt: &HostRuntime, letter: u8) -> Ending {
    match letter {
        b'c' | b'd' | b'a' => streams::ask(rt.alloc(), letter),
        b'i' => definitions::define(rt.alloc()),
        b'e' => streams::next(rt),
        b'r' | b't' | b'w' => trees::ask(rt, letter),
        b'n' => trees::document(rt.alloc()),
        b'f' => forms::write(rt.alloc()),
        _ => Ending::Wrong,
    }
}

/// Makes the calls that are named, each by a letter, and writes how each ended. Returns the status of the worst.
fn ask_all(rt: &HostRuntime, letters: &[u8]) -> u8 {
    let mut worst = 0;
    for letter in letters {
        if *letter != b'\n' {
            let ending = ask(rt, *letter);
            let written = println!(rt; "{}", ending.line()).is_ok();
            worst = worst.max(if written { ending.status() } else { 4 });
        }
    }
    worst
}

/// The status is 0 if all calls succeeded, 3 if an allocation failed and all is as promised, and else 4.
fn main(rt: HostRuntime) -> ExitCode {
    let mut letters = [0; 64];
    match rt.stdin().read(&mut letters) {
        Ok(count) => ExitCode::from(ask_all(&rt, &letters[..count])),
        Err(_) => ExitCode::from(4),
    }
}
