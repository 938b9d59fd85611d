use case_table::Seq;
use std::alloc::Global;

/// The answer of a read.
#[derive(Debug, Drop)]
pub enum Read {
    /// The file's bytes.
    Found(Seq<u8>),
    /// There is no such file.
    Absent,
    /// The file has more bytes than were wanted.
    TooLong,
    /// The outside failed, and the source counted it.
    Failed,
    OutOfMemory,
}

/// Where files come from.
pub trait Source {
    ghost use Rattle.io_edge.specs.Source.{SourceState, Reads};

    /// What the source tells of its files and faults. The files are the same after each call.
    ghost state: { Self → SourceState };

    /// Reads the file at a path, of which at most `most` bytes are wanted.
    fn read(&mut self, alloc: Global, path: &str, most: usize) -> Read
        ensures { Reads path.now most result (state self.old) (state self.new) };
}
