ghost use Rattle.std.specs.Prelude.{IsTrue};
ghost use Rattle.qs_values.specs.Kind.{has_width};
ghost use Rattle.timeline_board.specs.Conditions.{HoldsValue};

use controller_machine::{Ending, Played};
use outside::{MemorySink, PutFailed, TextBuffer};
use qs_machine::Machine;
use qs_values::{Kind, List, Memory, Name, Out, Refusal, Span, Ty};
use std::alloc::{AllocError, Global};
use std::test::Fail;
use timeline_board::{name_of_code, put_end, put_entry, put_outs, refused};

/// A register of 3 bits, numbers of several types, and a truth value.
const STORE: [u64; 9] = [1, 0, 0, 8, 7, 200, 5, 1, u64::MAX];

/// Puts the line of an output whose value is in the store.
fn put_named(
    alloc: Global,
    page: &mut TextBuffer,
    sink: &mut MemorySink,
    name: &str,
    first: u32,
    kind: Kind,
    width: u8,
) -> Result<(), Memory>
    requires wide { IsTrue (has_width kind width) }
    requires held { HoldsValue STORE first kind width }
{
    let out = Out {
        name: Name::copy_of(alloc, name)?,
        ty: Ty { kind, width },
        first,
    };
    put_outs(page, sink, &STORE, &[out]);
    Ok(())
}

#[test]
fn puts_values_of_all_types(rt: HostRuntime) -> Result<(), Fail> {
    let alloc = rt.alloc();
    let mut sink = MemorySink::new(alloc, 200, 200)?;
    let mut page = TextBuffer::new();
    put_named(alloc, &mut page, &mut sink, "c", 0, Kind::Bits, 3)?;
    put_named(alloc, &mut page, &mut sink, "low", 3, Kind::Int, 4)?;
    put_named(alloc, &mut page, &mut sink, "high", 4, Kind::Int, 4)?;
    put_named(alloc, &mut page, &mut sink, "wide", 8, Kind::Int, 64)?;
    put_named(alloc, &mut page, &mut sink, "u", 8, Kind::Uint, 64)?;
    put_named(alloc, &mut page, &mut sink, "a", 6, Kind::Angle, 20)?;
    put_named(alloc, &mut page, &mut sink, "t", 7, Kind::Bool, 1)?;
    put_named(alloc, &mut page, &mut sink, "b", 1, Kind::Bit, 1)?;
    page.finish(&mut sink)?;
    let wanted = b"\
out c 001
out low -8
out high 7
out wide -1
out u 18446744073709551615
out a 5
out t 1
out b 0
";
    assert_eq!(rt; sink.bytes(), wanted.as_slice());
    Ok(())
}

#[test]
fn puts_captures_and_the_end(rt: HostRuntime) -> Result<(), Fail> {
    let alloc = rt.alloc();
    let machine = Machine::builtin(alloc)?;
    assert_eq!(rt; machine.ports.len(), 6);
    assert_eq!(rt; machine.waveforms.len(), 3);
    let mut sink = MemorySink::new(alloc, 100, 100)?;
    let mut page = TextBuffer::new();
    for bit in [0, 1] {
        let played = Played {
            tick: 30,
            port: 3,
            wave: 2,
            phase: u32::MAX,
            hz: 5_000_000_000,
            bit: Some(bit),
        };
        put_entry(&mut page, &mut sink, &machine, &played);
    }
    put_end(&mut page, &mut sink, 50, Ending::Done);
    page.finish(&mut sink)?;
    let wanted = b"\
capture 30 a0 r20 4294967295 5000000000 0
capture 30 a0 r20 4294967295 5000000000 1
end 50 done
";
    assert_eq!(rt; sink.bytes(), wanted.as_slice());
    Ok(())
}

fn make_words(alloc: Global, texts: &[&str]) -> Result<List<Name>, AllocError> {
    let mut words = List::new(alloc);
    for text in texts {
        words.push(Name::copy_of(alloc, text)?)?;
    }
    Ok(words)
}

#[test]
fn puts_places_and_words(rt: HostRuntime) -> Result<(), Fail> {
    let alloc = rt.alloc();
    let place = Some(Span { line: 2, col: 15 });
    let cases = [
        (199, place, [].as_slice(), "refused 199 2:15 NotBuilt\n"),
        (11, None, [].as_slice(), "refused 11 MachineNotJson\n"),
        (
            17,
            None,
            ["frames", "0"].as_slice(),
            "refused 17 FrameWrong frames 0\n",
        ),
        (
            113,
            place,
            ["qreg"].as_slice(),
            "refused 113 2:15 Unsupported qreg\n",
        ),
        (
            211,
            place,
            ["1118481"].as_slice(),
            "refused 211 2:15 RunTooLarge 1118481\n",
        ),
    ];
    for (code, span, texts, wanted) in cases {
        assert!(rt; name_of_code(code).is_some());
        let refusal = Refusal {
            code,
            span,
            words: make_words(alloc, texts)?,
        };
        let mut sink = MemorySink::new(alloc, 100, 3)?;
        assert_eq!(rt; refused(&refusal, &mut sink), Ok(()));
        assert_eq!(rt; sink.bytes(), wanted.as_bytes());
        let mut sink = MemorySink::new(alloc, 20, 3)?;
        assert_eq!(rt; refused(&refusal, &mut sink), Err(PutFailed));
        assert_eq!(rt; sink.bytes().len(), 20);
        assert!(rt; wanted.as_bytes().starts_with(sink.bytes()));
    }
    Ok(())
}
