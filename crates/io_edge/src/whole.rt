ghost use Rattle.std.specs.Prelude.{OnOk, IfErr};
ghost use Rattle.io_edge.specs.Sink.{WroteAll, WrotePart};

use crate::sink::{Sink, Wrote};

/// A text didn't go out whole.
#[derive(Clone, Copy, Debug, PartialEq, Eq)]
pub struct WriteFault {
    /// How many of its bytes went out.
    pub gone: usize,
}

/// Writes all bytes in order, in as many calls as the sink wants. Takes no memory.
pub fn write_whole<S: Sink>(sink: &mut S, bytes: &[u8]) -> Result<(), WriteFault>
    ensures ok { OnOk result (WroteAll bytes.now (S.state sink.old) (S.state sink.new)) }
    ensures err { IfErr result (λ fault. WrotePart bytes.now fault.gone
        (S.state sink.old) (S.state sink.new)) }
{
    let mut gone = 0;
    while gone < bytes.len() {
        match sink.write(&bytes[gone..]) {
            Wrote::Took(count) => gone += count,
            Wrote::Failed => return Err(WriteFault { gone }),
        }
    }
    Ok(())
}
