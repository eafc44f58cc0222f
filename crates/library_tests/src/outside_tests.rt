use outside::{
    FileShelf, Kept, MemoryShelf, MemorySink, PutFailed, Shelf, Sink, StreamSink, TakeFault, Taken,
    TextBuffer, read_taken,
};
use qs_values::{List, Name};
use std::alloc::{AllocError, Global};
use std::fs;
use std::io::{self, ErrorKind, Read, Write};
use std::test::Fail;

#[test]
fn takes_texts_until_it_is_full(rt: HostRuntime) -> Result<(), Fail> {
    let mut sink = MemorySink::new(rt.alloc(), 8, 3)?;
    assert_eq!(rt; sink.put(b""), Ok(0));
    assert_eq!(rt; sink.put(b"abcd"), Ok(3));
    let mut page = TextBuffer::new();
    page.text(&mut sink, b"d, ");
    assert_eq!(rt; page.finish(&mut sink), Ok(()));
    assert_eq!(rt; sink.bytes(), b"abcd, ".as_slice());
    let mut page = TextBuffer::new();
    page.number(&mut sink, 1234);
    assert_eq!(rt; page.finish(&mut sink), Err(PutFailed));
    assert_eq!(rt; sink.bytes(), b"abcd, 12".as_slice());
    assert_eq!(rt; sink.put(b""), Ok(0));
    assert_eq!(rt; sink.faults(), 1);
    Ok(())
}

#[test]
fn puts_long_texts_and_nothing_after_a_fault(rt: HostRuntime) -> Result<(), Fail> {
    let mut sink = MemorySink::new(rt.alloc(), 140_000, 50_000)?;
    let first = vec![in rt.alloc(); b'a'; 65_500]?;
    let longer = vec![in rt.alloc(); b'c'; 74_399]?;
    let last = vec![in rt.alloc(); b'f'; 66_000]?;
    let mut page = TextBuffer::new();
    page.text(&mut sink, first.as_slice());
    page.text(&mut sink, &[b'b'; 100]);
    page.text(&mut sink, longer.as_slice());
    assert_eq!(rt; sink.bytes().len(), 139_999);
    page.text(&mut sink, b"de");
    page.text(&mut sink, last.as_slice());
    assert_eq!(rt; sink.faults(), 1);
    assert_eq!(rt; page.finish(&mut sink), Err(PutFailed));
    assert_eq!(rt; sink.faults(), 1);
    assert_eq!(rt; sink.bytes().len(), 140_000);
    assert_eq!(rt; sink.bytes().last(), Some(&b'd'));
    Ok(())
}

/// Is interrupted once, takes `left` bytes, one at a time, and then nothing, and then fails.
#[derive(Drop)]
struct Slow {
    is_interrupted: bool,
    left: u8,
    is_broken: bool,
}

impl Write for Slow {
    fn write(&mut self, bytes: &[u8]) -> io::Result<usize> {
        if self.is_interrupted {
            self.is_interrupted = false;
            return Err(io::Error::from(ErrorKind::Interrupted));
        }
        if self.is_broken {
            return Err(io::Error::from(ErrorKind::BrokenPipe));
        }
        if self.left == 0 || bytes.is_empty() {
            self.is_broken = true;
            return Ok(0);
        }
        self.left -= 1;
        Ok(1)
    }

    fn flush(&mut self) -> io::Result<()> {
        Ok(())
    }
}

#[test]
fn counts_what_the_writer_refuses(rt: HostRuntime) {
    let writer = Slow {
        is_interrupted: true,
        left: 2,
        is_broken: false,
    };
    let mut sink = StreamSink::new(writer);
    assert_eq!(rt; sink.put(b""), Ok(0));
    assert_eq!(rt; sink.put(b"abc"), Ok(1));
    assert_eq!(rt; sink.put(b"bc"), Ok(1));
    assert_eq!(rt; sink.faults(), 0);
    assert_eq!(rt; sink.put(b"c"), Err(PutFailed));
    assert_eq!(rt; sink.put(b"c"), Err(PutFailed));
    assert_eq!(rt; sink.faults(), 2);
}

/// Fails as if memory were out.
#[derive(Drop)]
struct Broken;

impl Read for Broken {
    fn read(&mut self, _: &mut [u8]) -> io::Result<usize> {
        Err(io::Error::from(ErrorKind::OutOfMemory))
    }
}

#[test]
fn tells_no_error_of_a_reader_as_out_of_memory(rt: HostRuntime) {
    assert!(rt; matches!(read_taken(Broken, rt.alloc(), 9), Err(TakeFault::Failed)));
}

#[test]
fn reads_files_up_to_the_limit(rt: HostRuntime) -> Result<(), Fail> {
    let alloc = rt.alloc();
    let mut shelf = FileShelf::new(rt.clone()?);
    fs::write(&rt, "shelf.txt", "abc")?;
    let whole = shelf.take(alloc, "shelf.txt", 3);
    let longer = shelf.take(alloc, "shelf.txt", 2);
    fs::remove_file(&rt, "shelf.txt")?;
    assert!(rt; matches!(&whole, Ok(Taken::Whole(bytes)) if bytes.as_slice() == b"abc".as_slice()));
    assert!(rt; matches!(longer, Ok(Taken::Longer)));
    assert_eq!(rt; shelf.faults(), 0);
    for (count, name) in [(1, "shelf.txt"), (2, ".")] {
        assert!(rt; matches!(shelf.take(alloc, name, 9), Err(TakeFault::Failed)));
        assert_eq!(rt; shelf.faults(), count);
        assert_eq!(rt; shelf.failed(), name);
    }
    Ok(())
}

fn keep(files: &mut List<Kept>, alloc: Global, name: &str, bytes: &[u8]) -> Result<(), AllocError> {
    files.push(Kept {
        name: Name::copy_of(alloc, name)?,
        bytes: List::from_vec(Vec::from_slice(alloc, bytes)?),
    })
}

#[test]
fn takes_the_first_file_of_a_name(rt: HostRuntime) -> Result<(), Fail> {
    let alloc = rt.alloc();
    let mut files = List::new(alloc);
    keep(&mut files, alloc, "gate", b"first")?;
    keep(&mut files, alloc, "gate", b"second")?;
    keep(&mut files, alloc, "pulse", b"")?;
    let mut fails = List::new(alloc);
    fails.push(1)?;
    let mut shelf = MemoryShelf::new(files, fails);
    let cases = [
        ("gate", 5, "first"),
        ("gate", 5, "fails"),
        ("gate", 4, "longer"),
        ("gates", 5, "fails"),
        ("pulse", 0, ""),
    ];
    for (name, limit, wanted) in cases {
        let answer = shelf.take(alloc, name, limit);
        match &answer {
            Ok(Taken::Whole(bytes)) => {
                assert_eq!(rt; bytes.as_slice(), wanted.as_bytes(), "{name}");
            }
            Ok(Taken::Longer) => assert_eq!(rt; wanted, "longer", "{name}"),
            Err(fault) => {
                assert_eq!(rt; *fault, TakeFault::Failed);
                assert_eq!(rt; wanted, "fails", "{name}");
            }
        }
    }
    let last = r#"calls: 5, faults: 2, failed: Some(Name { held: "gates" }) }"#;
    assert!(rt; format!(in alloc; "{shelf:?}")?.ends_with(last));
    Ok(())
}
