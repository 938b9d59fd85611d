//! The trees of modules, each part with the place where it stands; and the words that an expression and a module write.
#![tactic(auto)]

mod declarations;
mod expressions;
mod imports;
mod laws;
mod modules;
mod names;
mod types;
mod words;
mod write;
mod write_module;
#[cfg(test)]
mod write_module_tests;
#[cfg(test)]
mod write_tests;

pub use declarations::{Anno, Decl, EnumItem, Param};
pub use expressions::{Argument, Expr, LetInit, Lit};
pub use imports::{Import, Lead, ModuleRef, Qualified};
pub use laws::{
    module_places_change_no_word, module_places_come_from_tokens, places_change_no_word,
    places_come_from_tokens,
};
pub use modules::{Module, VersionLit};
pub use names::{Ident, Name, NameForm, Span};
pub use types::{Freq, Size, TypeTree};
pub use write::write_expr;
pub use write_module::write_tokens;
