ghost use Rattle.std.specs.Prelude.{◌≡◌, ◌<◌, ◌≤◌, ℕ, List, ◌==◌, ◌++◌, [], ◌∷◌, None, Some, length, position};
ghost use Rattle.std.specs.Prelude.{IfOk, IfErr, OnOk, OnErr};
ghost use Rattle.std.specs.Cmp.Lexicographic.{pointwise};
ghost use Rattle.module_loader.specs.declared.contents.Content.TheVariants as content;
ghost use Rattle.module_loader.specs.declared.fault.LoadFault.TheVariants as fault;
ghost use Rattle.module_loader.specs.inside.Contents.{AreRead, Reading, Fails, StandsAt, IsShort, content_of};
ghost use Rattle.module_loader.specs.inside.Contents.{content_at, paths};

use crate::fault::LoadFault;
use case_table::{Seq, Text};
use indexmap::IndexMap;
use io_edge::{Read, Source};
use std::alloc::Global;
use std::marker::Model;

/// The most bytes of a module's text.
const MOST_MODULE: usize = 4_194_304;

/// What stands at a path.
#[derive(Debug, Drop)]
pub enum Content {
    Found(Seq<u8>),
    Absent,
    TooLong,
}

/// What was read, by path. No path is read twice.
#[derive(Drop)]
pub struct Contents {
    known: IndexMap<Text, Content>,
}

impl Model for Contents {
    ghost use Rattle.std.specs.Prelude.{List};
    ghost use Rattle.module_loader.specs.inside.Contents.{Entry, AreRead};

    ghost Value = { List Entry };

    ghost view = { λ c. c.known.entries };

    ghost invariant = { λ c. AreRead c.known.entries };
}

impl Contents {
    pub fn new(alloc: Global) -> Contents
        ensures { result ≡ [] }
    {
        Contents {
            known: IndexMap::new(alloc),
        }
    }

    /// The law that each path was read once, and what was found is short.
    pub fn are_read(&self)
        ensures { AreRead self.now }
    {
        let _ = &self.known;
    }

    /// The index of what stands at a path.
    pub fn read<S: Source>(
        &mut self,
        alloc: Global,
        source: &mut S,
        path: Text,
    ) -> Result<usize, LoadFault>
        ensures reads { Reading (S.state source.old) (S.state source.new) self.old self.new }
        ensures found { IfOk result (λ index. StandsAt self.new path index) }
        ensures fails { IfErr result (λ fault. Fails (S.state source.old) (S.state source.new) fault) }
    {
        if let Some(index) = self.known.get_index_of(&path) {
            return Ok(index);
        }
        let content = content_of(source.read(alloc, path.as_str(), MOST_MODULE))?;
        self.learn(path, content)
    }

    /// Keeps what stands at a path that wasn't read before, and gives its index.
    fn learn(&mut self, path: Text, content: Content) -> Result<usize, LoadFault>
        requires new { position (pointwise ◌==◌ path) (paths self.old) ≡ None }
        requires short { IsShort (path, content) }
        ensures learned { OnOk result (self.new ≡ self.old ++ (path, content) ∷ []) }
        ensures last { IfOk result (λ index. index ≡ length self.old) }
        ensures unchanged { OnErr result (self.new ≡ self.old) }
        ensures memory { IfErr result (λ found. found ≡ fault.OutOfMemory) }
    {
        let index = self.known.len();
        self.known.insert(path, content)?;
        Ok(index)
    }

    /// What stands at an index.
    pub fn content(&self, index: usize) -> &Content
        requires { index < length self.now }
        ensures { content_at self.now index ≡ Some result.now }
    {
        &self.known[index]
    }

    /// The bytes that were found at an index.
    pub fn bytes(&self, index: usize) -> &[u8]
        requires { (bytes : List ℕ) × (content_at self.now index ≡ Some (content.Found bytes)) }
        ensures found { content_at self.now index ≡ Some (content.Found result.now) }
        ensures short { length result.now ≤ 4194304 }
    {
        let _ = &self.known;
        match self.content(index) {
            Content::Found(bytes) => bytes.list(),
            Content::Absent | Content::TooLong => &[],
        }
    }
}

/// What stands at a path, by the answer of a read.
fn content_of(read: Read) -> Result<Content, LoadFault>
    ensures { result ≡ content_of read }
{
    match read {
        Read::Found(bytes) => Ok(Content::Found(bytes)),
        Read::Absent => Ok(Content::Absent),
        Read::TooLong => Ok(Content::TooLong),
        Read::Failed => Err(LoadFault::ReadFault),
        Read::OutOfMemory => Err(LoadFault::OutOfMemory),
    }
}
