ghost use Rattle.std.specs.Prelude.{◌≡◌, Some, IfSome};
ghost use Rattle.io_edge.specs.Source.{Reads, Answers, IsWithin};
ghost use Rattle.io_edge.specs.Streams.{untold_files, after_answer};

use crate::calls::one_more;
use crate::source::{Read, Source};
use case_table::Seq;
use std::alloc::Global;
use std::io::Read as _;
use std::rt::Files;
use std::{fs, io};

/// The files of the system. It tells none of them, and counts each error.
#[derive(Drop)]
pub struct FileSource<'a, R> {
    rt: &'a R,
    faults: u64,
}

impl<'a, R: Files> FileSource<'a, R> {
    /// Takes no memory.
    pub fn new(rt: &'a R) -> FileSource<'a, R>
        ensures { result.faults ≡ 0 }
    {
        FileSource { rt, faults: 0 }
    }
}

impl<'a, R: Files> Source for FileSource<'a, R> {
    ghost state = { λ s. untold_files s.faults };

    fn read(&mut self, alloc: Global, path: &str, most: usize) -> Read
        ensures reads { Reads path.now most result
            (untold_files self.old.faults) (untold_files self.new.faults) }
        ensures counts { self.new.faults ≡ after_answer result self.old.faults }
    {
        let answer = read_file(self.rt, alloc, path, most);
        if matches!(&answer, Read::Failed) {
            self.faults = one_more(self.faults);
        }
        answer
    }
}

// The file's bytes, or why there are none.
fn read_file<R: Files>(rt: &R, alloc: Global, path: &str, most: usize) -> Read
    ensures { IsWithin result most }
{
    match fs::open(rt, path) {
        Ok(file) => read_open(file, alloc, most),
        Err(error) => match error.kind() {
            io::ErrorKind::NotFound | io::ErrorKind::NotADirectory => Read::Absent,
            io::ErrorKind::OutOfMemory => Read::OutOfMemory,
            _ => Read::Failed,
        },
    }
}

// Reads to the end, or to one byte more than is wanted.
fn read_open<F: io::Read + Drop>(file: F, alloc: Global, most: usize) -> Read
    ensures within { IsWithin result most }
    ensures told { IfSome (F.remaining file) (λ rest. Answers result most (Some rest)) }
{
    let limit = (most as u64).saturating_add(1);
    let mut bytes = Vec::new(alloc);
    match file.take(limit).read_to_end(&mut bytes) {
        Ok(_) if most < bytes.len() => Read::TooLong,
        Ok(_) => Read::Found(Seq::of(bytes)),
        Err(error) if error.kind() == io::ErrorKind::OutOfMemory => Read::OutOfMemory,
        Err(_) => Read::Failed,
    }
}
