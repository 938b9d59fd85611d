/// The answer of a write.
#[derive(Clone, Copy, Debug, PartialEq, Eq)]
pub enum Wrote {
    /// So many bytes of the piece were taken, from its front.
    Took(usize),
    /// None was taken, and the sink counted a fault.
    Failed,
}

/// Where texts go.
pub trait Sink {
    ghost use Rattle.io_edge.specs.Sink.{SinkState, Writes};

    /// What the sink tells of the bytes that it took, its faults and its room.
    ghost state: { Self → SinkState };

    /// Writes a piece, or its front. Takes no memory.
    fn write(&mut self, piece: &[u8]) -> Wrote
        ensures { Writes piece.now result (state self.old) (state self.new) };
}
