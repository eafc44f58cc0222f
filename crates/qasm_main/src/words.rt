ghost use Rattle.std.specs.Prelude.{◌≡◌, map, string_bytes};
ghost use Rattle.qasm_main.specs.Words.{command_of, shown};

/// What the words of a call ask for, of what is built.
#[derive(Clone, Copy)]
pub enum Command<'a> {
    /// `step F`: compile the file, run it by picks, and report.
    Step(&'a str),
    /// Any other words.
    Usage,
}

/// What these words ask for. Neither `-` nor the empty word is a file to step.
pub fn command_of(words: &[String]) -> Command<'_>
    ensures { shown result ≡ command_of (map string_bytes words.now) }
{
    match words {
        [word, file] if word.as_str() == "step" => {
            let name = file.as_str();
            if name == "-" || name.is_empty() {
                Command::Usage
            } else {
                Command::Step(name)
            }
        }
        _ => Command::Usage,
    }
}
