ghost use Rattle.std.specs.Prelude.{None};

use crate::top::plain_top;
use outside::{Kept, MemoryShelf, MemorySink, PutFailed, Sink};
use qs_values::{List, Memory, Name};
use std::alloc::{AllocError, Global};
use std::test::Fail;

const STEP: &[&str] = &["step", "F"];

const TWO: &[u8] = b"x $0; x $0;";

const TWO_PULSES: &[u8] =
    b"pulse 0 d0 w4 0 5000000000\npulse 4 d0 w4 0 5000000000\nend 8 done\nsteps 2 waits 0\n";

const USAGE: &[u8] =
    b"usage: check F [M] | code F [M] | step F [M [T [O]]] | run F [M [T]] | make N [text]\n";

/// A text and how often it stands in the file F, and the status and the text that `step F` answers. A core is handed
/// back exactly where the status is 0.
type Source = (&'static [u8], u32, u8, &'static [u8]);

const SOURCES: [Source; 16] = [
    (TWO, 1, 0, TWO_PULSES),
    (b"", 1, 0, b"end 0 done\nsteps 0 waits 0\n"),
    (
        b"x $1;\ndelay[3dt] $0;\ncx $0, $1;\nbarrier $0, $2;\nx $2;\ndelay[5dt] $2;",
        1,
        0,
        b"pulse 0 d1 w4 0 5000000000\npulse 4 d0 w8 0 5000000000\npulse 4 d1 w8 0 5000000000\npulse 12 d2 w4 0 5000000000\nend 21 done\nsteps 4 waits 0\n",
    ),
    (
        b"x $0; barrier $0, $1; x $1;",
        1,
        0,
        b"pulse 0 d0 w4 0 5000000000\npulse 4 d1 w4 0 5000000000\nend 8 done\nsteps 2 waits 0\n",
    ),
    (
        b"cx $0, $1; delay[3dt] $1; x $1;",
        1,
        0,
        b"pulse 0 d0 w8 0 5000000000\npulse 0 d1 w8 0 5000000000\npulse 11 d1 w4 0 5000000000\nend 15 done\nsteps 3 waits 0\n",
    ),
    (
        b"delay[4294967296dt] $2;",
        1,
        0,
        b"end 4294967296 done\nsteps 0 waits 0\n",
    ),
    (
        b"delay[4294967296dt] $0;",
        256,
        0,
        b"end 1099511627776 done\nsteps 0 waits 0\n",
    ),
    (
        b"delay[4294967296dt] $0;",
        257,
        1,
        b"refused 203 1:1 TickOut\n",
    ),
    (
        b"x $0;\ndelay[4294967297dt] $2;",
        1,
        1,
        b"refused 199 2:1 NotBuilt\n",
    ),
    (b"x $0; y $0;", 1, 1, b"refused 199 1:7 NotBuilt\n"),
    (b"x $0;\xFF", 1, 1, b"refused 101 1:6 NotUtf8\n"),
    (b"x $ 0;", 1, 1, b"refused 102 1:3 BadChar\n"),
    (b"/* open", 1, 1, b"refused 103 1:1 OpenComment\n"),
    (b"x $0; \"01", 1, 1, b"refused 104 1:7 OpenText\n"),
    (b"x $4294967296;", 1, 1, b"refused 105 1:3 NumberTooWide\n"),
    (b";", 262_145, 1, b"refused 106 1:262145 TooManyTokens\n"),
];

/// A call over a shelf with the file F, whose takes of these numbers fail, into a sink with room for so many bytes; and
/// what it is to answer.
struct Call {
    words: &'static [&'static str],
    source: &'static [u8],
    fails: &'static [u32],
    room: u32,
    status: u8,
    text: &'static [u8],
    has_core: bool,
}

const CALLS: [Call; 6] = [
    Call {
        words: &["step", "G"],
        source: TWO,
        fails: &[],
        room: 1_000,
        status: 4,
        text: b"read failed G\n",
        has_core: false,
    },
    Call {
        words: STEP,
        source: TWO,
        fails: &[0],
        room: 1_000,
        status: 4,
        text: b"read failed F\n",
        has_core: false,
    },
    Call {
        words: STEP,
        source: TWO,
        fails: &[1],
        room: 1_000,
        status: 0,
        text: TWO_PULSES,
        has_core: true,
    },
    Call {
        words: STEP,
        source: TWO,
        fails: &[],
        room: 5,
        status: 5,
        text: b"pulse",
        has_core: true,
    },
    Call {
        words: STEP,
        source: b"y",
        fails: &[],
        room: 5,
        status: 5,
        text: b"refus",
        has_core: false,
    },
    Call {
        words: &["step", "G"],
        source: TWO,
        fails: &[],
        room: 0,
        status: 5,
        text: b"",
        has_core: false,
    },
];

/// Words that the usage answers.
const NO_COMMANDS: [&[&str]; 5] = [
    &[],
    &["step"],
    &["step", "-"],
    &["step", "F", "-"],
    &["run", "F"],
];

/// A sink that fails at the put of this number, takes all others whole, and counts them.
#[derive(Drop)]
struct FailingSink {
    fails: u32,
    puts: u32,
    faults: u64,
}

impl Sink for FailingSink {
    ghost state = { λ s. record { bytes = None; faults = s.faults } };

    fn put(&mut self, piece: &[u8]) -> Result<usize, PutFailed> {
        let number = self.puts;
        self.puts = number.saturating_add(1);
        if number == self.fails && !piece.is_empty() {
            self.faults = self.faults.saturating_add(1);
            return Err(PutFailed);
        }
        Ok(piece.len())
    }
}

/// A shelf that has so many copies of the source as the file F.
fn make_shelf(
    alloc: Global,
    source: &[u8],
    times: u32,
    fails: &[u32],
) -> Result<MemoryShelf, Memory> {
    let mut bytes = Vec::new(alloc);
    for _ in 0..times {
        bytes.extend_from_slice(source)?;
    }
    let mut files = List::new(alloc);
    files.push(Kept {
        name: Name::copy_of(alloc, "F")?,
        bytes: List::from_vec(bytes),
    })?;
    let fails = List::from_vec(Vec::from_slice(alloc, fails)?);
    Ok(MemoryShelf::new(files, fails))
}

fn make_words(alloc: Global, words: &[&str]) -> Result<Vec<String>, AllocError> {
    let mut all = Vec::new(alloc);
    for word in words {
        all.push(String::from_str(alloc, word)?)?;
    }
    Ok(all)
}

/// What a call answered.
#[derive(Drop)]
struct Answered {
    status: u8,
    has_core: bool,
}

fn answer<K: Sink>(
    alloc: Global,
    words: &[&str],
    mut shelf: MemoryShelf,
    sink: &mut K,
) -> Result<Answered, AllocError> {
    let words = make_words(alloc, words)?;
    let plain = plain_top(alloc, words.as_slice(), &mut shelf, sink);
    Ok(Answered {
        status: plain.status,
        has_core: plain.core.is_some(),
    })
}

#[test]
fn answers_by_sources(rt: HostRuntime) -> Result<(), Fail> {
    let alloc = rt.alloc();
    for (number, (source, times, status, text)) in SOURCES.iter().enumerate() {
        let shelf = make_shelf(alloc, source, *times, &[])?;
        let mut sink = MemorySink::new(alloc, 1_000, 7)?;
        let answered = answer(alloc, STEP, shelf, &mut sink)?;
        assert_eq!(rt; answered.status, *status, "source {number}");
        assert_eq!(rt; sink.bytes(), *text, "source {number}");
        assert_eq!(rt; answered.has_core, *status == 0, "source {number}");
    }
    Ok(())
}

#[test]
fn answers_by_words_files_and_room(rt: HostRuntime) -> Result<(), Fail> {
    let alloc = rt.alloc();
    for (number, call) in CALLS.iter().enumerate() {
        let shelf = make_shelf(alloc, call.source, 1, call.fails)?;
        let mut sink = MemorySink::new(alloc, call.room, 7)?;
        let answered = answer(alloc, call.words, shelf, &mut sink)?;
        assert_eq!(rt; answered.status, call.status, "call {number}");
        assert_eq!(rt; sink.bytes(), call.text, "call {number}");
        assert_eq!(rt; answered.has_core, call.has_core, "call {number}");
    }
    Ok(())
}

#[test]
fn answers_other_words(rt: HostRuntime) -> Result<(), Fail> {
    let alloc = rt.alloc();
    for (number, words) in NO_COMMANDS.iter().enumerate() {
        let shelf = make_shelf(alloc, TWO, 1, &[])?;
        let mut sink = MemorySink::new(alloc, 1_000, 7)?;
        let answered = answer(alloc, words, shelf, &mut sink)?;
        assert_eq!(rt; answered.status, 2, "words {number}");
        assert_eq!(rt; sink.bytes(), USAGE, "words {number}");
        assert!(rt; !answered.has_core, "words {number}");
    }
    Ok(())
}

#[test]
fn puts_nothing_after_a_fault(rt: HostRuntime) -> Result<(), Fail> {
    let alloc = rt.alloc();
    let calls: [(&[&str], &[u8], u32, u32, bool); 6] = [
        (STEP, TWO, 1, 0, true),
        (STEP, TWO, 1, 1, true),
        (STEP, TWO, 200, 1, true),
        (STEP, b"x $0; y", 1, 0, false),
        (&["step", "G"], b"", 1, 0, false),
        (&[], b"", 1, 0, false),
    ];
    for (number, (words, source, times, fails, has_core)) in calls.iter().enumerate() {
        let shelf = make_shelf(alloc, source, *times, &[])?;
        let mut sink = FailingSink {
            fails: *fails,
            puts: 0,
            faults: 0,
        };
        let answered = answer(alloc, words, shelf, &mut sink)?;
        assert_eq!(rt; answered.status, 5, "call {number}");
        assert_eq!(rt; sink.faults, 1, "call {number}");
        assert_eq!(rt; sink.puts, *fails + 1, "call {number}");
        assert_eq!(rt; answered.has_core, *has_core, "call {number}");
    }
    Ok(())
}
