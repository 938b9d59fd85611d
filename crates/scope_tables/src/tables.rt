ghost use Rattle.std.specs.Prelude.{◌≡◌, true, false, replicate, option_map, IfOk};
ghost use Rattle.scope_tables.specs.inside.Finding.{entity_at, is_hidden};

use crate::entity::Entity;
use crate::own::Own;
use crate::reach::Reach;
use std::alloc::{AllocError, Global};

/// The entities of one module, and what it sees of others.
#[derive(Drop)]
pub struct Table {
    pub own: Own,
    pub reaches: Vec<Reach>,
    /// For each entity whether it is a prototype that its definition hides.
    pub hidden: Vec<bool>,
}

/// An entity by its module and its index there.
#[derive(Clone, Copy, PartialEq, Eq)]
pub struct Place {
    pub module: usize,
    pub index: usize,
}

/// The entity at a place.
pub fn entity_at(tables: &[Table], place: Place) -> Option<&Entity>
    ensures { option_map (λ entity. entity.now) result ≡ entity_at tables.now place }
{
    match tables.get(place.module) {
        Some(table) => table.own.list().get(place.index),
        None => None,
    }
}

pub fn is_hidden(table: &Table, index: usize) -> bool
    ensures { result ≡ is_hidden table.now index }
{
    match table.hidden.get(index) {
        Some(hidden) => *hidden,
        None => true,
    }
}

/// So many flags, none of which is set.
pub fn unset_flags(alloc: Global, count: usize) -> Result<Vec<bool>, AllocError>
    ensures { IfOk result (λ flags. flags.items ≡ replicate count false) }
{
    let flags = vec![in alloc; false; count]?;
    Ok(flags)
}
