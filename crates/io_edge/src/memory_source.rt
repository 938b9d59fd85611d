ghost use Rattle.std.specs.Prelude.{◌≡◌, ◌≢◌, ◌↔◌, IsTrue, map, option_map, string_bytes};
ghost use Rattle.io_edge.specs.Source.{file_at, Reads, Answers, IsWithin};
ghost use Rattle.io_edge.specs.Memory.{read_fails, after_read, files_state, steady_files};
ghost use Rattle.io_edge.specs.declared.source.Read.TheVariants.{Failed};

use crate::calls::{is_listed, one_more};
use crate::source::{Read, Source};
use case_table::Seq;
use std::alloc::Global;
use std::marker::Model;

/// Files in memory. The listed calls fail.
#[derive(Debug, Drop)]
pub struct MemorySource {
    files: Vec<(String, Vec<u8>)>,
    failing: Vec<u64>,
    calls: u64,
    faults: u64,
}

impl Model for MemorySource {
    ghost use Rattle.std.specs.Prelude.{map, string_bytes};
    ghost use Rattle.io_edge.specs.Memory.{MemoryFiles};

    ghost Value = { MemoryFiles };

    ghost view = { λ s. record {
      files = map (λ f. (string_bytes f.0, f.1.items)) s.files.items;
      failing = s.failing.items;
      calls = s.calls;
      faults = s.faults;
    } };
}

impl MemorySource {
    /// The files, and the numbers from 0 of the calls that fail. Takes no memory.
    pub fn new(files: Vec<(String, Vec<u8>)>, failing: Vec<u64>) -> MemorySource
        ensures { result ≡ record {
          files = map (λ f. (string_bytes f.0, f.1.items)) files.items;
          failing = failing.items;
          calls = 0;
          faults = 0;
        } }
    {
        MemorySource {
            files,
            failing,
            calls: 0,
            faults: 0,
        }
    }
}

impl Source for MemorySource {
    ghost state = { files_state };

    fn read(&mut self, alloc: Global, path: &str, most: usize) -> Read
        ensures reads { Reads path.now most result (files_state self.old) (files_state self.new) }
        ensures after { self.new ≡ after_read self.old }
        ensures failed { result ≡ Failed ↔ IsTrue (read_fails self.old) }
    {
        let fails = is_listed(self.failing.as_slice(), self.calls);
        self.calls = one_more(self.calls);
        if fails {
            self.faults = one_more(self.faults);
            return Read::Failed;
        }
        answer(alloc, find(self.files.as_slice(), path), most)
    }
}

/// Files in memory. No call fails.
#[derive(Debug, Drop)]
pub struct SteadySource {
    files: Vec<(String, Vec<u8>)>,
}

impl Model for SteadySource {
    ghost use Rattle.std.specs.Prelude.{List, map, string_bytes};
    ghost use Rattle.io_edge.specs.Source.{File};

    ghost Value = { List File };

    ghost view = { λ s. map (λ f. (string_bytes f.0, f.1.items)) s.files.items };
}

impl SteadySource {
    /// Takes no memory.
    pub fn new(files: Vec<(String, Vec<u8>)>) -> SteadySource
        ensures { result ≡ map (λ f. (string_bytes f.0, f.1.items)) files.items }
    {
        SteadySource { files }
    }
}

impl Source for SteadySource {
    ghost state = { steady_files };

    fn read(&mut self, alloc: Global, path: &str, most: usize) -> Read
        ensures reads { Reads path.now most result (steady_files self.old) (steady_files self.new) }
        ensures same { self.new ≡ self.old }
        ensures succeeds { result ≢ Failed }
    {
        answer(alloc, find(self.files.as_slice(), path), most)
    }
}

// The bytes of the first file at the path.
fn find<'a>(files: &'a [(String, Vec<u8>)], path: &str) -> Option<&'a [u8]>
    ensures { option_map (λ bytes. bytes.now) result
        ≡ file_at (map (λ f. (string_bytes f.0, f.1.items)) files.now) path.now }
{
    for (name, bytes) in files {
        if path == name.as_str() {
            return Some(bytes.as_slice());
        }
    }
    None
}

// What a read of a file that is or isn't there answers, where it doesn't fail.
fn answer(alloc: Global, file: Option<&[u8]>, most: usize) -> Read
    ensures told { Answers result most (option_map (λ bytes. bytes.now) file.entry) }
    ensures within { IsWithin result most }
    ensures succeeds { result ≢ Failed }
{
    match file {
        None => Read::Absent,
        Some(bytes) if most < bytes.len() => Read::TooLong,
        Some(bytes) => match Seq::copy(alloc, bytes) {
            Ok(copy) => Read::Found(copy),
            Err(_) => Read::OutOfMemory,
        },
    }
}
