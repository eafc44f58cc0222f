//! Compiles dynamic quantum circuits to pulses, runs them on their controllers, and writes the
//! timeline.
#![tactic(auto)]

mod front;
mod laws;
mod run;
mod telling;
#[cfg(test)]
mod tests;
mod top;
mod words;

use outside::{FileShelf, StreamSink};
use qs_values::Memory;
use std::alloc::Global;
use std::env::{Env, FillError};
use std::io;
use std::process::ExitCode;
use top::{OUT_OF_MEMORY, plain_top};

/// How many bytes there is room for in a word, where it didn't fit before.
const ROOMS: [usize; 3] = [256, 65_536, 16_777_216];

/// The bytes of the word of this number, where there is one. The program's name has the number 0.
fn word_at(rt: &HostRuntime, alloc: Global, number: usize) -> Result<Option<Vec<u8>>, Memory> {
    for room in ROOMS {
        let mut word = vec![in alloc; 0; room]?;
        match rt.arg(number, &mut word) {
            Ok(length) => {
                word.truncate(length);
                return Ok(Some(word));
            }
            Err(FillError::NotPresent) => return Ok(None),
            Err(FillError::TooLong) => {}
        }
    }
    Err(Memory)
}

/// The words after the program's name, which isn't looked at. There are none where one of them isn't
/// UTF-8, since no command fits it.
fn words_of(rt: &HostRuntime, alloc: Global) -> Result<Vec<String>, Memory> {
    let mut words = Vec::new(alloc);
    for number in 1..usize::MAX {
        let Some(word) = word_at(rt, alloc, number)? else {
            break;
        };
        match String::from_utf8(word) {
            Ok(word) => words.push(word)?,
            Err(_) => return Ok(Vec::new(alloc)),
        }
    }
    Ok(words)
}

fn main(rt: HostRuntime) -> ExitCode {
    let alloc = rt.alloc();
    let Ok(words) = words_of(&rt, alloc) else {
        return ExitCode::from(OUT_OF_MEMORY);
    };
    let Ok(files) = rt.clone() else {
        return ExitCode::from(OUT_OF_MEMORY);
    };
    let mut shelf = FileShelf::new(files);
    let mut sink = StreamSink::new(io::writer(&rt));
    let plain = plain_top(alloc, words.as_slice(), &mut shelf, &mut sink);
    ExitCode::from(plain.status)
}
