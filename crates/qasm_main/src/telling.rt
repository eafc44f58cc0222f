ghost use Rattle.std.specs.Prelude.{◌++◌, ◌≡◌};
ghost use Rattle.outside.specs.Sink.{PutsText};
ghost use Rattle.plan_tree.specs.Run.{run_of};
ghost use Rattle.timeline_board.specs.Report.{report_of};
ghost use Rattle.qasm_main.specs.Answer.{Finishes};
ghost use Rattle.qasm_main.specs.Ran.{no_tape};
ghost use Rattle.qasm_main.specs.Texts.{counts_line, read_failed, usage};
ghost use Rattle.qasm_main.specs.steps.Outcome.{IsReportable, IsTellable, reply_of, status_of, text_of};

use crate::run::Ran;
use controller_core::Counts;
use outside::{PutFailed, Sink, TextBuffer};
use qs_machine::Machine;
use qs_values::Refusal;
use timeline_board::{refused, report};

const USAGE: &[u8] =
    b"usage: check F [M] | code F [M] | step F [M [T [O]]] | run F [M [T]] | make N [text]\n";

/// What a call comes to, before it is told.
#[derive(Drop)]
pub enum Outcome<'a> {
    /// The words are no command.
    Usage,
    /// The file of this name couldn't be read.
    ReadFailed(&'a str),
    /// A file or a source is refused; with the status.
    Refused(u8, Refusal),
    /// A plan was run, and is reported on a machine.
    Report(Ran, Machine),
}

/// The status that an outcome is told with, where the sink has no fault.
pub fn status_of(outcome: &Outcome) -> u8
    ensures { result ≡ status_of outcome.now }
{
    match outcome {
        Outcome::Usage => 2,
        Outcome::ReadFailed(_) => 4,
        Outcome::Refused(status, _) => *status,
        Outcome::Report(_, _) => 0,
    }
}

/// Puts the text of an outcome. After a fault of the sink nothing more is put.
pub fn put_text<K: Sink>(outcome: &Outcome, sink: &mut K) -> Result<(), PutFailed>
    requires { IsTellable outcome.now }
    ensures { PutsText (K.state sink.old) (K.state sink.new) (text_of outcome.now) result }
{
    match outcome {
        Outcome::Usage => put_usage(sink),
        Outcome::ReadFailed(name) => put_read_failed(name, sink),
        Outcome::Refused(_, refusal) => refused(refusal, sink),
        Outcome::Report(ran, machine) => put_run(ran, machine, sink),
    }
}

/// Puts the usage line.
fn put_usage<K: Sink>(sink: &mut K) -> Result<(), PutFailed>
    ensures { PutsText (K.state sink.old) (K.state sink.new) usage result }
{
    let mut page = TextBuffer::new();
    page.text(sink, USAGE);
    page.finish(sink)
}

/// Puts the line of a file that couldn't be read.
fn put_read_failed<K: Sink>(name: &str, sink: &mut K) -> Result<(), PutFailed>
    ensures { PutsText (K.state sink.old) (K.state sink.new) (read_failed name.now) result }
{
    let mut page = TextBuffer::new();
    page.text(sink, b"read failed ");
    page.text(sink, name.as_bytes());
    page.text(sink, b"\n");
    page.finish(sink)
}

/// Puts the report of a run and its counts.
fn put_run<K: Sink>(ran: &Ran, machine: &Machine, sink: &mut K) -> Result<(), PutFailed>
    requires { IsReportable ran.now machine.now }
    ensures { PutsText (K.state sink.old) (K.state sink.new)
        (report_of ran.now.plan machine.now (run_of ran.now.plan no_tape)
        ++ counts_line ran.now.counts.stepped ran.now.counts.waited) result }
{
    report(&ran.plan, machine, &ran.core, sink)?;
    put_counts(ran.counts, sink)
}

/// Puts the line of the counts of a run.
fn put_counts<K: Sink>(counts: Counts, sink: &mut K) -> Result<(), PutFailed>
    ensures { PutsText (K.state sink.old) (K.state sink.new)
        (counts_line counts.stepped counts.waited) result }
{
    let mut page = TextBuffer::new();
    page.text(sink, b"steps ");
    page.number(sink, counts.stepped);
    page.text(sink, b" waits ");
    page.number(sink, counts.waited);
    page.text(sink, b"\n");
    page.finish(sink)
}
