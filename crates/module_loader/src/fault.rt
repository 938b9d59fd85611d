use case_table::{OutOfMemory, Seq};
use expression_grammar::ParseFault;
use io_edge::Place;
use mdl_lexer::LexFault;
use module_set::ModuleName;
use std::alloc::{AllocError, AllocFailed};

/// Why modules can't be loaded. Of several faults the one whose module has the least index in the closure is told,
/// and a cycle only where there is no other. `docs/PACKAGES.md` has the rules.
#[derive(Debug, Drop)]
pub enum LoadFault {
    /// The source failed.
    ReadFault,
    /// There is no such module. `importer` is the first that imports it, with the place of its first import, or
    /// the one whose import goes up past the top. A module that was asked for has none, and line and column 0.
    Absent {
        importer: Option<ModuleName>,
        place: Place,
        name: ModuleName,
    },
    /// The module's text is longer than 4,194,304 bytes.
    TooLong {
        name: ModuleName,
    },
    /// The module's text has no words. Bytes that aren't UTF-8 have column 0.
    Lex {
        module: ModuleName,
        fault: LexFault,
        place: Place,
    },
    /// The module's words aren't accepted.
    Parse {
        module: ModuleName,
        fault: ParseFault,
        place: Place,
    },
    /// More than 4,096 modules are needed.
    TooMany,
    /// Each of these modules imports the next, and the last one the first.
    Cycle {
        path: Seq<ModuleName>,
    },
    OutOfMemory,
}

impl From<AllocError> for LoadFault {
    ghost use Rattle.std.specs.Prelude.{◌≡◌};
    ghost use Rattle.module_loader.specs.declared.fault.LoadFault.TheVariants as fault;

    ghost from_gives = { λ _ made. made ≡ fault.OutOfMemory };

    fn from(_error: AllocError) -> LoadFault {
        LoadFault::OutOfMemory
    }
}

impl<T: Drop> From<AllocFailed<T>> for LoadFault {
    ghost use Rattle.std.specs.Prelude.{◌≡◌};
    ghost use Rattle.module_loader.specs.declared.fault.LoadFault.TheVariants as fault;

    ghost from_gives = { λ _ made. made ≡ fault.OutOfMemory };

    fn from(_error: AllocFailed<T>) -> LoadFault {
        LoadFault::OutOfMemory
    }
}

impl From<OutOfMemory> for LoadFault {
    ghost use Rattle.std.specs.Prelude.{◌≡◌};
    ghost use Rattle.module_loader.specs.declared.fault.LoadFault.TheVariants as fault;

    ghost from_gives = { λ _ made. made ≡ fault.OutOfMemory };

    fn from(_error: OutOfMemory) -> LoadFault {
        LoadFault::OutOfMemory
    }
}
