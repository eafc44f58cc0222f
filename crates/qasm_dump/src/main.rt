//! Prints what one pass of the compiler makes of a source.
#![tactic(auto)]

mod lexed;
mod output;
mod parsed;
mod signs;
mod tokens;
mod top;
mod trees;
mod words;
mod writing;

use outside::{FileShelf, StreamSink};
use std::alloc::Global;
use std::process::ExitCode;
use std::{env, io};

/// The status where memory ran out.
const OUT_OF_MEMORY: u8 = 7;

/// The words after the program's name. There are none where a word isn't UTF-8, since no call has
/// such a word.
fn words_of(rt: &HostRuntime, alloc: Global) -> io::Result<Vec<String>> {
    let mut words = Vec::new(alloc);
    match env::args(rt) {
        Ok(args) => {
            for word in args.skip(1) {
                words.push(word)?;
            }
        }
        Err(error) if error.kind() == io::ErrorKind::OutOfMemory => return Err(error),
        Err(_) => {}
    }
    Ok(words)
}

fn main(rt: HostRuntime) -> ExitCode {
    let alloc = rt.alloc();
    let Ok(words) = words_of(&rt, alloc) else {
        return ExitCode::from(OUT_OF_MEMORY);
    };
    let Ok(files) = rt.clone() else {
        return ExitCode::from(OUT_OF_MEMORY);
    };
    let mut shelf = FileShelf::new(files);
    let mut sink = StreamSink::new(io::writer(&rt));
    ExitCode::from(top::dump(alloc, words.as_slice(), &mut shelf, &mut sink))
}
