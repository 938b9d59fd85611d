use crate::module_name::ModuleName;
use case_table::{Seq, Text};
use mdl_syntax::Module;

/// Modules, each at one index of the three lists.
#[derive(Debug, Drop)]
pub struct ModuleSet {
    pub names: Seq<ModuleName>,
    pub modules: Seq<Module>,
    /// What each module was read from.
    pub texts: Seq<Text>,
}
