//! Compiles materials of the Material Definition Language into graphs.
#![tactic(auto)]

mod answer;
mod find;
mod first_text;
mod forms;
mod graph_text;
mod lines;
mod names;
mod put;
mod run;
mod status;
mod terms;
#[cfg(test)]
mod tests;
mod tree;
mod words;

use io_edge::{FileSource, NoGate, StdSink};
use run::{run, tell_out_of_memory};
use std::alloc::Global;
use std::process::ExitCode;
use std::rt::Env;
use std::{env, io};

fn main(rt: HostRuntime) -> ExitCode {
    let alloc = rt.alloc();
    let mut source = FileSource::new(&rt);
    let mut out = StdSink::new(rt.stdout());
    let mut diag = StdSink::new(rt.stderr());
    let status = match command_line(&rt) {
        Ok(words) => run(
            &rt,
            alloc,
            &words,
            &mut source,
            &mut out,
            &mut diag,
            &NoGate,
        ),
        // Words that are no text ask for nothing, as no words do.
        Err(error) if error.kind() != io::ErrorKind::OutOfMemory => {
            run(&rt, alloc, &[], &mut source, &mut out, &mut diag, &NoGate)
        }
        Err(_) => tell_out_of_memory(&mut diag),
    };
    ExitCode::from(status.exit_number())
}

/// The words after the program's name.
fn command_line<R: Env + AllocGlobal>(rt: &R) -> io::Result<Vec<String>> {
    let words = env::args(rt)?.skip(1).collect(rt.alloc())?;
    Ok(words)
}
