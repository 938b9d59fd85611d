ghost use Rattle.std.specs.Prelude.{◌≡◌};
ghost use Rattle.io_edge.specs.Sink.{Writes};
ghost use Rattle.io_edge.specs.Streams.{untold_bytes, after_wrote, PassedOn};

use crate::calls::one_more;
use crate::sink::{Sink, Wrote};
use std::io;

/// A stream of the system, as the standard output. It tells none of the bytes that it took, and
/// counts each error. It is an error too where the writer takes nothing of a piece. Nothing is
/// flushed, so the writer may have no buffer.
#[derive(Drop)]
pub struct StdSink<W> {
    writer: W,
    faults: u64,
}

impl<W: io::Write> StdSink<W> {
    /// Takes no memory.
    pub fn new(writer: W) -> StdSink<W>
        ensures writer { result.writer ≡ writer }
        ensures faults { result.faults ≡ 0 }
    {
        StdSink { writer, faults: 0 }
    }
}

impl<W: io::Write> Sink for StdSink<W> {
    ghost state = { λ s. untold_bytes s.faults };

    fn write(&mut self, piece: &[u8]) -> Wrote
        ensures writes { Writes piece.now result
            (untold_bytes self.old.faults) (untold_bytes self.new.faults) }
        ensures counts { self.new.faults ≡ after_wrote result self.old.faults }
        ensures passed_on { PassedOn piece.now result
            (W.contents self.old.writer) (W.contents self.new.writer) }
    {
        match self.writer.write(piece) {
            Ok(count) if 0 < count || piece.is_empty() => Wrote::Took(count),
            _ => {
                self.faults = one_more(self.faults);
                Wrote::Failed
            }
        }
    }
}
