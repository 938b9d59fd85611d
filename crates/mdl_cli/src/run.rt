ghost use Rattle.std.specs.Prelude.{ℕ, List, map, string_bytes};
ghost use Rattle.io_edge.specs.Source.{File};
ghost use Rattle.mdl_cli.specs.Lines.{out_of_memory_line};
ghost use Rattle.mdl_cli.specs.OneOutcome.{OneOutcome};
ghost use Rattle.mdl_cli.specs.Headline.{Headline, Complete};
ghost use Rattle.mdl_cli.specs.inside.Delivery.{Tells, Answers, Delivers};

use crate::answer::Answer;
use crate::find::find_answer;
use crate::status::Status;
use command_words::one_request;
use io_edge::{Gate, Sink, Source, write_whole};
use module_loader::one_load;
use scope_core::one_scope_fault;
use std::alloc::Global;
use std::thread::Threads;

/// Answers a command line: reads from the source, and writes the answer's text to `out` or one line
/// to `diag`.
/// The text is written only once the whole of it is known.
pub fn run<R: Threads + Sync, S: Source, O: Sink, D: Sink, G: Gate>(
    rt: &R,
    alloc: Global,
    words: &[String],
    source: &mut S,
    out: &mut O,
    diag: &mut D,
    gate: &G,
) -> Status
    ensures headline { Headline (record {
      words = map string_bytes words.now;
      status = result;
      source = S.state source.old;
      source_after = S.state source.new;
      out = O.state out.old;
      out_after = O.state out.new;
      diag = D.state diag.old;
      diag_after = D.state diag.new;
    }) }
    ensures complete { Complete (record {
      words = map string_bytes words.now;
      status = result;
      source = S.state source.old;
      source_after = S.state source.new;
      out = O.state out.old;
      out_after = O.state out.new;
      diag = D.state diag.old;
      diag_after = D.state diag.new;
    }) }
{
    one_outcome();
    let answer = find_answer(rt, alloc, words, source, gate);
    deliver(answer, out, diag)
}

/// Writes what was found, and gives its status.
fn deliver<O: Sink, D: Sink>(answer: Answer, out: &mut O, diag: &mut D) -> Status
    ensures { Delivers answer result (O.state out.old) (O.state out.new) (D.state diag.old) (D.state diag.new) }
{
    match answer {
        Answer::Text(text) => give(&text, out, diag),
        Answer::Refused(line) => tell(Status::Refused, &line, diag),
        Answer::NotBuilt => tell(Status::Refused, b"error 9 NotBuilt\n", diag),
        Answer::Usage => tell(Status::Usage, b"error 1 Usage\n", diag),
        Answer::ReadFault => tell(Status::ReadFault, b"error 2 ReadFault\n", diag),
        Answer::OutOfMemory => tell(Status::OutOfMemory, b"error 4 OutOfMemory\n", diag),
    }
}

/// Writes an answer's text. Where that fails the line of a write fault is still tried.
fn give<O: Sink, D: Sink>(text: &[u8], out: &mut O, diag: &mut D) -> Status
    ensures { Answers text.now result (O.state out.old) (O.state out.new) (D.state diag.old) (D.state diag.new) }
{
    match write_whole(out, text) {
        Ok(()) => Status::Done,
        Err(_) => tell(Status::WriteFault, b"error 3 WriteFault\n", diag),
    }
}

/// Writes the line that goes with a status.
fn tell<D: Sink>(status: Status, line: &[u8], diag: &mut D) -> Status
    ensures { Tells status line.now result (D.state diag.old) (D.state diag.new) }
{
    match write_whole(diag, line) {
        Ok(()) => status,
        Err(_) => Status::WriteFault,
    }
}

/// Tells that there was no memory, where not even the words could be had.
pub fn tell_out_of_memory<D: Sink>(diag: &mut D) -> Status
    ensures { Tells Status.OutOfMemory out_of_memory_line result (D.state diag.old) (D.state diag.new) }
{
    tell(Status::OutOfMemory, b"error 4 OutOfMemory\n", diag)
}

/// The law that the promises of `run` rest on: for all words and files exactly one of answer and
/// refusal stands.
pub fn one_outcome()
    ensures { (words : List (List ℕ)) (files : List File) → OneOutcome words files }
{
    one_request();
    one_load();
    one_scope_fault();
}
