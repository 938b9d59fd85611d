use case_table::{Seq, Text};
use module_set::ModuleName;

/// A command with its options.
#[derive(Debug, Drop)]
pub struct Request {
    pub task: Task,
    /// The roots under which modules are looked for, 1 to 64.
    pub roots: Seq<Text>,
    /// How many workers may read modules, 1 to 64.
    pub workers: u32,
}

/// What is to be done.
#[derive(Debug, Drop)]
pub enum Task {
    /// The instance of a material of a module.
    Instance { module: ModuleName, material: Text },
    /// Modules are looked at with all that they import. At least one, and none twice.
    Check { modules: Seq<ModuleName> },
}
