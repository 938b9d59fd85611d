ghost use Rattle.std.specs.Prelude.{◌≡◌, ◌+◌, ◌≤◌, [], ◌++◌};
ghost use Rattle.std.specs.Prelude.{length, take, IfOk, if◌then◌else◌};
ghost use Rattle.io_edge.specs.Sink.{Writes};
ghost use Rattle.io_edge.specs.Memory.{bytes_state, write_fails, write_count, after_write};
ghost use Rattle.io_edge.specs.Memory.{steady_bytes, steady_fails, steady_count, after_steady};
ghost use Rattle.io_edge.specs.declared.sink.Wrote.TheVariants.{Took, Failed};

use crate::calls::{is_listed, one_more};
use crate::sink::{Sink, Wrote};
use case_table::OutOfMemory;
use std::alloc::Global;
use std::marker::Model;

/// Bytes in memory. The listed calls fail.
#[derive(Debug, Drop)]
pub struct MemorySink {
    bytes: Vec<u8>,
    filled: usize,
    most: usize,
    failing: Vec<u64>,
    calls: u64,
    faults: u64,
}

impl Model for MemorySink {
    ghost use Rattle.std.specs.Prelude.{◌≤◌, take, length};
    ghost use Rattle.io_edge.specs.Memory.{MemoryBytes};

    ghost Value = { MemoryBytes };

    ghost view = { λ s. record {
      taken = take s.filled s.bytes.items;
      capacity = length s.bytes.items;
      most = s.most;
      failing = s.failing.items;
      calls = s.calls;
      faults = s.faults;
    } };

    ghost invariant = { λ s. (s.filled ≤ length s.bytes.items) × (1 ≤ s.most) };
}

impl MemorySink {
    /// Room for so many bytes, how many of them one call takes at most, and the numbers from 0 of
    /// the calls that fail. All memory is taken here.
    pub fn new(
        alloc: Global,
        room: usize,
        most: usize,
        failing: Vec<u64>,
    ) -> Result<MemorySink, OutOfMemory>
        requires { 1 ≤ most }
        ensures { IfOk result (λ sink. sink ≡ record {
          taken = [];
          capacity = room;
          most = most;
          failing = failing.items;
          calls = 0;
          faults = 0;
        }) }
    {
        let bytes = vec![in alloc; 0u8; room]?;
        Ok(MemorySink {
            bytes,
            filled: 0,
            most,
            failing,
            calls: 0,
            faults: 0,
        })
    }

    /// The bytes that were taken, in order.
    pub fn taken(&self) -> &[u8]
        ensures { result.now ≡ self.now.taken }
    {
        &self.bytes[..self.filled]
    }
}

impl Sink for MemorySink {
    ghost state = { bytes_state };

    fn write(&mut self, piece: &[u8]) -> Wrote
        ensures writes { Writes piece.now result (bytes_state self.old) (bytes_state self.new) }
        ensures after { self.new ≡ after_write self.old piece.now }
        ensures answer { result ≡ (if write_fails self.old piece.now then Failed
            else Took (write_count self.old piece.now)) }
    {
        let fails = is_listed(self.failing.as_slice(), self.calls);
        self.calls = one_more(self.calls);
        let room = self.bytes.len() - self.filled;
        if fails || !piece.is_empty() && room == 0 {
            self.faults = one_more(self.faults);
            return Wrote::Failed;
        }
        let count = piece.len().min(self.most.min(room));
        put(self.bytes.as_mut_slice(), self.filled, &piece[..count]);
        self.filled += count;
        Wrote::Took(count)
    }
}

/// Bytes in memory. No call fails while there is room.
#[derive(Debug, Drop)]
pub struct SteadySink {
    bytes: Vec<u8>,
    filled: usize,
    faults: u64,
}

impl Model for SteadySink {
    ghost use Rattle.std.specs.Prelude.{◌≤◌, take, length};
    ghost use Rattle.io_edge.specs.Memory.{SteadyBytes};

    ghost Value = { SteadyBytes };

    ghost view = { λ s. record {
      taken = take s.filled s.bytes.items;
      capacity = length s.bytes.items;
      faults = s.faults;
    } };

    ghost invariant = { λ s. s.filled ≤ length s.bytes.items };
}

impl SteadySink {
    /// Room for so many bytes. All memory is taken here.
    pub fn new(alloc: Global, room: usize) -> Result<SteadySink, OutOfMemory>
        ensures { IfOk result (λ sink. sink ≡ record { taken = []; capacity = room; faults = 0 }) }
    {
        let bytes = vec![in alloc; 0u8; room]?;
        Ok(SteadySink {
            bytes,
            filled: 0,
            faults: 0,
        })
    }

    /// The bytes that were taken, in order.
    pub fn taken(&self) -> &[u8]
        ensures { result.now ≡ self.now.taken }
    {
        &self.bytes[..self.filled]
    }
}

impl Sink for SteadySink {
    ghost state = { steady_bytes };

    fn write(&mut self, piece: &[u8]) -> Wrote
        ensures writes { Writes piece.now result (steady_bytes self.old) (steady_bytes self.new) }
        ensures after { self.new ≡ after_steady self.old piece.now }
        ensures answer { result ≡ (if steady_fails self.old piece.now then Failed
            else Took (steady_count self.old piece.now)) }
    {
        let room = self.bytes.len() - self.filled;
        if !piece.is_empty() && room == 0 {
            self.faults = one_more(self.faults);
            return Wrote::Failed;
        }
        let count = piece.len().min(room);
        put(self.bytes.as_mut_slice(), self.filled, &piece[..count]);
        self.filled += count;
        Wrote::Took(count)
    }
}

// Writes the piece over the bytes from `filled` on.
fn put(bytes: &mut [u8], filled: usize, piece: &[u8])
    requires { filled + length piece.now ≤ length bytes.old }
    ensures room { length bytes.new ≡ length bytes.old }
    ensures put { take (filled + length piece.now) bytes.new ≡ take filled bytes.old ++ piece.now }
{
    bytes[filled..filled + piece.len()].copy_from_slice(piece);
}
