ghost use Rattle.std.specs.Prelude.{◌≡◌, ◌++◌, ◌∷◌, [], List, map, length, slice_index_or, IfOk, OnOk};
ghost use Rattle.std.specs.List.{position_or_len};
ghost use Rattle.case_table.specs.Lists.{firsts};
ghost use Rattle.scope_tables.specs.declared.entity.Entity.{Entity};
ghost use Rattle.scope_tables.specs.inside.Owning.{AreOwn, same_text, names_in, indices_of, number_in};
ghost use Rattle.scope_tables.specs.inside.Owning.{numbers_of};

use crate::entity::Entity;
use case_table::Text;
use indexmap::IndexSet;
use smallvec::SmallVec;
use std::alloc::{AllocError, Global};
use std::marker::Model;

/// The entities of a module, in order, and by their names.
#[derive(Drop)]
pub struct Own {
    entities: Vec<Entity>,
    names: IndexSet<Text>,
    /// For each name the indices of its entities. Most names have one.
    lists: Vec<SmallVec<usize, 1>>,
    /// For each entity the number of its name.
    numbers: Vec<usize>,
}

impl Model for Own {
    ghost use Rattle.std.specs.Prelude.{◌≡◌, List, map};
    ghost use Rattle.scope_tables.specs.declared.entity.Entity.{Entity};
    ghost use Rattle.scope_tables.specs.inside.Owning.{AreOwn, numbers_of};

    ghost Value = { List Entity };

    ghost view = { λ own. own.entities.items };

    ghost invariant = { λ own. AreOwn own.entities.items own.names.keys (map (λ list. list.items) own.lists.items)
        × (own.numbers.items ≡ numbers_of own.entities.items) };
}

impl Own {
    pub fn of(alloc: Global, entities: Vec<Entity>) -> Result<Own, AllocError>
        ensures { IfOk result (λ own. own ≡ entities.items) }
    {
        let mut names = IndexSet::new(alloc);
        let mut lists = Vec::new(alloc);
        let mut numbers = Vec::with_capacity(alloc, entities.len())?;
        for index in 0..entities.len() {
            let number = note(alloc, &mut names, &mut lists, &entities[index], index)?;
            numbers.push(number)?;
        }
        Ok(Own {
            entities,
            names,
            lists,
            numbers,
        })
    }

    pub fn list(&self) -> &[Entity]
        ensures { result.now ≡ self.now }
    {
        &self.entities
    }

    /// The indices of the entities of a name, in order.
    pub fn indices(&self, name: &Text) -> &[usize]
        ensures { result.now ≡ indices_of self.now name.now }
    {
        match self.names.get_index_of(name) {
            Some(number) => &self.lists[number],
            None => &[],
        }
    }

    /// How many names the entities have.
    pub fn count(&self) -> usize
        ensures { result ≡ length (firsts same_text (names_in self.now)) }
    {
        self.lists.len()
    }

    /// The indices of the entities of the name that has this number, in order.
    pub fn numbered(&self, number: usize) -> &[usize]
        ensures { result.now
            ≡ slice_index_or (map (indices_of self.now) (firsts same_text (names_in self.now))) number [] }
    {
        match self.lists.get(number) {
            Some(indices) => indices,
            None => &[],
        }
    }

    /// The number of a name among those of the entities. Names have the same number exactly where they are equal.
    pub fn number(&self, name: &Text) -> usize
        ensures { result ≡ number_in self.now name.now }
    {
        match self.names.get_index_of(name) {
            Some(number) => number,
            None => self.names.len(),
        }
    }

    /// The number of the name of the entity of an index, or how many names there are where no entity has it.
    pub fn number_at(&self, index: usize) -> usize
        ensures { result ≡ slice_index_or (numbers_of self.now) index (length (firsts same_text (names_in self.now))) }
    {
        match self.numbers.get(index) {
            Some(number) => *number,
            None => self.names.len(),
        }
    }
}

/// Takes in the entity of an index, which comes behind the others, and answers the number of its name.
fn note(
    alloc: Global,
    names: &mut IndexSet<Text>,
    lists: &mut Vec<SmallVec<usize, 1>>,
    entity: &Entity,
    index: usize,
) -> Result<usize, AllocError>
    ensures number { IfOk result (λ number. number ≡ position_or_len (same_text entity.now.name) names.old.keys) }
    ensures own { OnOk result ((entities : List Entity) → length entities ≡ index
        → AreOwn entities names.old.keys (map (λ list. list.items) lists.old.items)
        → AreOwn (entities ++ entity.now ∷ []) names.new.keys (map (λ list. list.items) lists.new.items)) }
{
    let name = entity.name.clone()?;
    let (number, fresh) = names.insert_full(name)?;
    if fresh {
        let mut list = SmallVec::new(alloc);
        list.push(index)?;
        lists.push(list)?;
    } else if let Some(list) = lists.get_mut(number) {
        list.push(index)?;
    }
    Ok(number)
}
