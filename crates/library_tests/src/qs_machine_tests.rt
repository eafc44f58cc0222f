use crate::machine_cases::{TABLES, TAPES};
use crate::machine_examples::{BUILT_IN, FIVE_QUBITS, TAPE};
use qs_machine::{Machine, tape_from_json};
use qs_values::{Input, Kind, List, Name, Ty};
use std::alloc::Global;
use std::test::Fail;

/// The fields of the built-in machine's table, as they are written in JSON.
static FIELDS: [(&str, &str); 12] = [
    ("version", "1"),
    ("dt", "1000"),
    ("qubits", "3"),
    (
        "controllers",
        r#"["hub","drive","drive","drive","acquire"]"#,
    ),
    (
        "ports",
        r#"[{"name":"d0","controller":1,"qubits":[0]},{"name":"d1","controller":2,"qubits":[1]},{"name":"d2","controller":3,"qubits":[2]},{"name":"a0","controller":4,"qubits":[0]},{"name":"a1","controller":4,"qubits":[1]},{"name":"a2","controller":4,"qubits":[2]}]"#,
    ),
    (
        "frames",
        r#"[{"name":"d0f","port":"d0","frequency":5000000000,"phase":0},{"name":"d1f","port":"d1","frequency":5000000000,"phase":0},{"name":"d2f","port":"d2","frequency":5000000000,"phase":0},{"name":"a0f","port":"a0","frequency":5000000000,"phase":0},{"name":"a1f","port":"a1","frequency":5000000000,"phase":0},{"name":"a2f","port":"a2","frequency":5000000000,"phase":0}]"#,
    ),
    (
        "waveforms",
        r#"[{"name":"w4","samples":[<4:[1000,0]>]},{"name":"w8","samples":[<8:[1000,0]>]},{"name":"r20","samples":[<20:[1000,0]>]}]"#,
    ),
    (
        "families",
        r#"{"drive":["d0f","d1f","d2f"],"acquire":["a0f","a1f","a2f"]}"#,
    ),
    ("gap", "10"),
    ("budget", "100"),
    ("mail", "4"),
    (
        "cal",
        r#""defcal x q { play(drive(q), w4); }\ndefcal sx q { play(drive(q), w4); }\ndefcal rz(angle[32] t) q { shift_phase(drive(q), t); }\ndefcal cx a, b { play(drive(a), w8); play(drive(b), w8); }\ndefcal measure q -> bit { return capture_v2(acquire(q), r20); }\n""#,
    ),
];

/// Writes copies of a text, in which a `#` stands for the number of the copy.
fn put_copies(
    alloc: Global,
    text: &mut String,
    copy: &str,
    count: u32,
    between: &str,
) -> Result<(), Fail> {
    for number in 0..count {
        if number > 0 {
            text.push_str(between)?;
        }
        match copy.split_once('#') {
            Some((head, tail)) => text.push_str(&format!(in alloc; "{head}{number}{tail}")?)?,
            None => text.push_str(copy)?,
        }
    }
    Ok(())
}

/// Writes a text, in which `<COUNT:TEXT>` stands for so many copies with commas between, and
/// `<COUNT*TEXT>` for so many without.
fn put_expanded(alloc: Global, text: &mut String, compact: &str) -> Result<(), Fail> {
    let (plain, rest) = compact.split_once('<').unwrap_or((compact, ""));
    text.push_str(plain)?;
    for piece in rest.split('<') {
        let Some((copies, after)) = piece.split_once('>') else {
            continue;
        };
        let ((count, copy), between) = match copies.split_once(':') {
            Some(parts) => (parts, ","),
            None => (copies.split_once('*').ok_or("no sign after a count")?, ""),
        };
        let count = count.parse().ok().ok_or("no count")?;
        put_copies(alloc, text, copy, count, between)?;
        text.push_str(after)?;
    }
    Ok(())
}

/// Writes a field and a comma.
fn put_field(alloc: Global, text: &mut String, name: &str, value: &str) -> Result<(), Fail> {
    text.push('"')?;
    text.push_str(name)?;
    text.push_str("\":")?;
    put_expanded(alloc, text, value)?;
    text.push(',')?;
    Ok(())
}

/// What a case makes of a field: `-NAME` takes it away and `NAME=VALUE` writes another value.
fn changed<'c>(case: &'c str, name: &str, value: &'c str) -> Option<&'c str> {
    let mut found = Some(value);
    for change in case.split(" ; ") {
        if change.strip_prefix('-') == Some(name) {
            found = None;
        }
        if let Some((field, written)) = change.split_once('=') {
            if field == name {
                found = Some(written);
            }
        }
    }
    found
}

/// The built-in machine's table as a case changes it. What the table has no field for goes last,
/// and so does `+NAME=VALUE`; `whole=TEXT` stands for the whole text.
fn table_of(alloc: Global, case: &str) -> Result<String, Fail> {
    let mut text = String::new(alloc);
    if let Some(whole) = case.strip_prefix("whole=") {
        text.push_str(whole)?;
        return Ok(text);
    }
    text.push('{')?;
    for (name, value) in FIELDS {
        if let Some(value) = changed(case, name, value) {
            put_field(alloc, &mut text, name, value)?;
        }
    }
    for change in case.split(" ; ") {
        let Some((name, value)) = change.split_once('=') else {
            continue;
        };
        match name.strip_prefix('+') {
            Some(name) => put_field(alloc, &mut text, name, value)?,
            None if FIELDS.iter().all(|(field, _)| *field != name) => {
                put_field(alloc, &mut text, name, value)?;
            }
            None => {}
        }
    }
    text.pop();
    if !text.is_empty() {
        text.push('}')?;
    }
    Ok(text)
}

/// A code and the words after it.
fn told(alloc: Global, code: u16, words: &List<Name>) -> Result<String, Fail> {
    let mut text = format!(in alloc; "{code}")?;
    for word in words.as_slice() {
        text.push(' ')?;
        text.push_str(word.as_str())?;
    }
    Ok(text)
}

/// What the reader of tables answers.
fn table_answer(alloc: Global, bytes: &[u8]) -> Result<String, Fail> {
    match Machine::from_json(alloc, bytes) {
        Ok(_) => Ok(String::from_str(alloc, "accepted")?),
        Err(refusal) => told(alloc, refusal.code(), &refusal.words(alloc)?),
    }
}

#[test]
fn refuses_tables_by_their_first_fault(rt: HostRuntime) -> Result<(), Fail> {
    let alloc = rt.alloc();
    for line in TABLES.lines() {
        let (case, wanted) = line.split_once(" => ").ok_or("no answer")?;
        let table = table_of(alloc, case)?;
        let answer = table_answer(alloc, table.as_bytes())?;
        assert_eq!(rt; answer.as_str(), wanted, "of {case}");
    }
    Ok(())
}

/// The machine of a table that is to be accepted.
fn machine_of(alloc: Global, table: &str) -> Result<Machine, Fail> {
    match Machine::from_json(alloc, table.as_bytes()) {
        Ok(machine) => Ok(machine),
        Err(_) => Err(Fail::from("the table is refused")),
    }
}

#[test]
fn reads_the_built_in_table_and_no_part_of_it(rt: HostRuntime) -> Result<(), Fail> {
    let alloc = rt.alloc();
    let table = table_of(alloc, "")?;
    let builtin = Machine::builtin(alloc)?;
    let shown = format!(in alloc; "{builtin:?}")?;
    for text in [table.as_str(), BUILT_IN] {
        let machine = machine_of(alloc, text)?;
        assert_eq!(rt; format!(in alloc; "{machine:?}")?.as_str(), shown.as_str());
    }
    for end in 0..table.len() {
        let answer = table_answer(alloc, &table.as_bytes()[..end])?;
        assert_eq!(rt; answer.as_str(), "11", "of {end} bytes");
    }
    assert_eq!(rt; table_answer(alloc, b"{\"\xff\":1}")?.as_str(), "11");
    assert_eq!(rt; table_answer(alloc, b"{\"a\nb\":1}")?.as_str(), "11");
    Ok(())
}

/// The type that a word and a width name, as `int` and 4.
fn ty_of(word: &str, width: u8) -> Ty {
    let wide = width.clamp(1, 64);
    if word == "bit" {
        return Ty {
            kind: Kind::Bit,
            width: 1,
        };
    }
    if word == "bool" {
        return Ty {
            kind: Kind::Bool,
            width: 1,
        };
    }
    if word == "bits" {
        return Ty {
            kind: Kind::Bits,
            width: wide,
        };
    }
    if word == "int" {
        return Ty {
            kind: Kind::Int,
            width: wide,
        };
    }
    if word == "uint" {
        return Ty {
            kind: Kind::Uint,
            width: wide,
        };
    }
    Ty {
        kind: Kind::Angle,
        width: width.clamp(1, 32),
    }
}

/// The input that a text declares, as `int4 n`.
fn input_of(alloc: Global, text: &str) -> Result<Input, Fail> {
    let (ty, name) = text.split_once(' ').ok_or("no name")?;
    let digits = ty.trim_start_matches(|c: char| c.is_ascii_alphabetic());
    let width: u8 = digits.parse().ok().ok_or("no width")?;
    let word = ty.strip_suffix(digits).unwrap_or(ty);
    Ok(Input {
        name: Name::copy_of(alloc, name)?,
        ty: ty_of(word, width),
        first: 0,
    })
}

/// The inputs that a text declares.
fn inputs_of(alloc: Global, text: &str) -> Result<List<Input>, Fail> {
    let mut inputs = List::new(alloc);
    for input in text.split(',') {
        if !input.is_empty() {
            inputs.push(input_of(alloc, input)?)?;
        }
    }
    Ok(inputs)
}

#[test]
fn refuses_tapes_by_their_first_fault(rt: HostRuntime) -> Result<(), Fail> {
    let alloc = rt.alloc();
    for line in TAPES.lines() {
        let (inputs, case) = line.split_once(" | ").ok_or("no inputs")?;
        let (compact, wanted) = case.split_once(" => ").ok_or("no answer")?;
        let mut text = String::new(alloc);
        put_expanded(alloc, &mut text, compact)?;
        let answer = match tape_from_json(alloc, text.as_bytes(), &inputs_of(alloc, inputs)?, 3) {
            Ok(_) => String::from_str(alloc, "accepted")?,
            Err(refusal) => told(alloc, refusal.code(), &refusal.words(alloc)?)?,
        };
        assert_eq!(rt; answer.as_str(), wanted, "of {case}");
    }
    Ok(())
}

#[test]
fn reads_the_other_examples(rt: HostRuntime) -> Result<(), Fail> {
    let alloc = rt.alloc();
    let machine = machine_of(alloc, FIVE_QUBITS)?;
    assert_eq!(rt; machine.qubits, 5);
    assert_eq!(rt; machine.ports.len(), 13);
    let last = machine.ports.as_slice().last().ok_or("no port")?;
    assert_eq!(rt; last.name.as_str(), "line");
    assert_eq!(rt; last.qubits.as_slice(), [0, 1, 2, 3, 4].as_slice());
    let inputs = inputs_of(alloc, "uint8 t,int8 offset")?;
    let Ok(tape) = tape_from_json(alloc, TAPE.as_bytes(), &inputs, 3) else {
        return Err(Fail::from("the tape is refused"));
    };
    assert_eq!(rt; tape.inputs.as_slice(), [5, 253].as_slice());
    let first = tape.bits.as_slice().first().ok_or("no bits")?;
    assert_eq!(rt; first.as_slice(), [1, 1, 0, 1].as_slice());
    Ok(())
}

#[test]
fn reads_bits_and_inputs(rt: HostRuntime) -> Result<(), Fail> {
    let alloc = rt.alloc();
    let inputs = inputs_of(alloc, "int4 n,bits8 r,int64 m")?;
    let text = r#"{"inputs":{"m":-1,"n":-8,"r":200},"bits":{"2":"011","0":""}}"#;
    let Ok(tape) = tape_from_json(alloc, text.as_bytes(), &inputs, 4) else {
        return Err(Fail::from("the tape is refused"));
    };
    assert_eq!(rt; tape.inputs.as_slice(), [8, 200, u64::MAX].as_slice());
    assert_eq!(rt; tape.bits.len(), 4);
    for (qubit, bits) in tape.bits.as_slice().iter().enumerate() {
        let wanted = if qubit == 2 {
            [0, 1, 1].as_slice()
        } else {
            &[]
        };
        assert_eq!(rt; bits.as_slice(), wanted, "of {qubit}");
    }
    Ok(())
}
