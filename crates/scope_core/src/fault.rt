use std::alloc::AllocError;

/// What is wrong with the names of a set. `at` is the byte offset of the name in the text of its module.
#[derive(Clone, Copy, Debug, PartialEq, Eq)]
pub enum ScopeFault {
    /// The second of two that may not stand together.
    Twice { module: u32, at: u32 },
    /// An imported name that its module doesn't have.
    Unknown { module: u32, at: u32 },
    /// An imported name of which nothing is exported.
    NotExported { module: u32, at: u32 },
    /// A name of a `using` that stands for something else too.
    Clash { module: u32, at: u32 },
    OutOfMemory,
}

impl From<AllocError> for ScopeFault {
    ghost use Rattle.std.specs.Prelude.{◌≡◌};
    ghost use Rattle.scope_core.specs.declared.fault.ScopeFault.TheVariants as fault;

    ghost from_gives = { λ _ made. made ≡ fault.OutOfMemory };

    fn from(_error: AllocError) -> ScopeFault {
        ScopeFault::OutOfMemory
    }
}
