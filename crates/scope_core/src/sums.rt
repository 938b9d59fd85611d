ghost use Rattle.std.specs.Prelude.{◌≡◌, [], map, slice_index_or, IfOk};
ghost use Rattle.scope_core.specs.inside.Sums.{kinds_there, kinds_of_all, under_all, nothing, sums_in, AreSums, under};

use case_table::Text;
use scope_tables::kinds::{Kinds, NO_KINDS};
use scope_tables::tables::{Table, is_hidden};
use std::alloc::{AllocError, Global};

/// The sorts of what stands under a name of a module, and of what is exported of it.
#[derive(Clone, Copy)]
pub struct NameKinds {
    pub all: Kinds,
    pub exported: Kinds,
}

const NOTHING: NameKinds = NameKinds {
    all: NO_KINDS,
    exported: NO_KINDS,
};

/// For each table what stands under each of its names, by the number of the name.
pub fn sums(alloc: Global, tables: &[Table]) -> Result<Vec<Vec<NameKinds>>, AllocError>
    ensures { IfOk result (λ sums. AreSums tables.now sums.items) }
{
    let mut sums = Vec::new(alloc);
    for table in tables {
        let row = sums_in(alloc, table)?;
        sums.push(row)?;
    }
    Ok(sums)
}

fn sums_in(alloc: Global, table: &Table) -> Result<Vec<NameKinds>, AllocError>
    ensures { IfOk result (λ row. row.items ≡ sums_in table.now) }
{
    let mut row = Vec::new(alloc);
    for number in 0..table.own.count() {
        row.push(under_all(table, table.own.numbered(number)))?;
    }
    Ok(row)
}

fn under_all(table: &Table, indices: &[usize]) -> NameKinds
    ensures { result ≡ under_all table.now indices.now }
{
    NameKinds {
        all: kinds_of_all(table, indices, false),
        exported: kinds_of_all(table, indices, true),
    }
}

/// The sorts of the entities of a table at these indices.
fn kinds_of_all(table: &Table, indices: &[usize], exported: bool) -> Kinds
    ensures { result ≡ kinds_of_all table.now exported indices.now }
{
    let mut kinds = NO_KINDS;
    for index in indices {
        kinds = kinds.and(kinds_there(table, *index, exported));
    }
    kinds
}

fn kinds_there(table: &Table, index: usize, exported: bool) -> Kinds
    ensures { result ≡ kinds_there table.now exported index }
{
    match table.own.list().get(index) {
        Some(entity) if !is_hidden(table, index) && (!exported || entity.exported) => {
            Kinds::of(entity.sort)
        }
        _ => NO_KINDS,
    }
}

/// What stands under a name of a module.
pub fn under(tables: &[Table], sums: &[Vec<NameKinds>], module: usize, name: &Text) -> NameKinds
    ensures { AreSums tables.now sums.now → result ≡ under tables.now «module» name.now }
{
    match tables.get(module) {
        Some(table) => numbered(sums, module, table.own.number(name)),
        None => NOTHING,
    }
}

/// What stands under the name of a number.
fn numbered(sums: &[Vec<NameKinds>], module: usize, number: usize) -> NameKinds
    ensures { result
        ≡ slice_index_or (slice_index_or (map (λ row. row.items) sums.now) «module» []) number nothing }
{
    match sums.get(module) {
        Some(row) => numbered_in(row, number),
        None => NOTHING,
    }
}

fn numbered_in(row: &[NameKinds], number: usize) -> NameKinds
    ensures { result ≡ slice_index_or row.now number nothing }
{
    match row.get(number) {
        Some(under) => *under,
        None => NOTHING,
    }
}
