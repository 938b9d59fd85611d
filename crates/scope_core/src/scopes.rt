ghost use Rattle.std.specs.Prelude.{◌≡◌, ◌<◌, ◌++◌, ◌∷◌, [], None, List, map, length, replicate, false, slice_get};
ghost use Rattle.std.specs.Prelude.{slice_index_or, IfOk, IfErr};
ghost use Rattle.case_table.specs.Lists.{firsts};
ghost use Rattle.mdl_syntax.specs.Modules.{module_of};
ghost use Rattle.module_set.specs.Names.{same_name};
ghost use Rattle.module_set.specs.Cycles.{HasNoCycle};
ghost use Rattle.module_set.specs.Members.{members_of};
ghost use Rattle.module_set.specs.ModuleSets.{IsModuleSet};
ghost use Rattle.scope_tables.specs.Entities.{Declared, entities_from};
ghost use Rattle.scope_tables.specs.PreludeEntities.{prelude};
ghost use Rattle.scope_tables.specs.Visible.{World, look};
ghost use Rattle.scope_core.specs.Standing.{world_of, standing};
ghost use Rattle.scope_core.specs.ScopeFaults.{scope_faults, Fails};
ghost use Rattle.scope_core.specs.Places.{IsAtName};
ghost use Rattle.scope_tables.specs.inside.Order.{AreWithin};
ghost use Rattle.scope_core.specs.inside.Holding.{Hold};
ghost use Rattle.scope_tables.specs.inside.Reaching.{bringing_of, AreReaches};
ghost use Rattle.scope_core.specs.inside.Scoping.{Holds, ArePieces, AreInside, AreMade, AreWritten, NoneHidden};
ghost use Rattle.scope_core.specs.inside.Scoping.{brought_all};
ghost use Rattle.scope_core.specs.inside.Rounds.{Describes, AreSettled};
ghost use Rattle.scope_core.specs.inside.Checking.{faults_of, faults_in, places_in};
ghost use Rattle.scope_core.specs.inside.Lessening.{least_onto};

use crate::fault::ScopeFault;
use crate::faults::module_fault;
use crate::settled::{Scene, Settled, settle_all};
use case_table::OutOfMemory;
use indexmap::IndexSet;
use mdl_syntax::{Module, Name};
use module_set::{ModuleName, ModuleSet};
use scope_tables::brought::{Bringing, brought};
use scope_tables::declared::{Piece, Written, declare, number_of};
use scope_tables::entity::Entity;
use scope_tables::found::View;
use scope_tables::looked::Looked;
use scope_tables::looking;
use scope_tables::order::order;
use scope_tables::own::Own;
use scope_tables::prelude::prelude;
use scope_tables::reach::{Reach, reaches};
use scope_tables::tables::{Table, unset_flags};
use std::alloc::{AllocError, Global};

/// What names mean in the modules of a set.
#[derive(Drop)]
pub struct Scopes {
    names: Vec<ModuleName>,
    tables: Vec<Table>,
}

impl Scopes {
    /// The scopes of a set, or the first of its faults: that of the least module, then of the least place, then as
    /// `ScopeFault` lists them.
    pub fn new(alloc: Global, set: &ModuleSet) -> Result<Scopes, ScopeFault>
        requires { IsModuleSet set.now }
        ensures holds { IfOk result (λ scopes. Holds scopes (world_of set.now.names (members_of set.now))
            (standing set.now.names (members_of set.now))) }
        ensures sound { IfOk result (λ _. scope_faults set.now.names (members_of set.now) ≡ []) }
        ensures fault { IfErr result (Fails (scope_faults set.now.names (members_of set.now))) }
        ensures placed { IfErr result (IsAtName set.now) }
    {
        let modules = set.modules.list();
        let names = copies(alloc, set.names.list())?;
        let brought = brought_of_all(alloc, &names, modules)?;
        let pieces = pieces_of(alloc, modules)?;
        let (tables, written) = tables_of(alloc, pieces, &brought)?;
        let scene = Scene {
            names: &names,
            written: &written,
        };
        let settled = settle(alloc, scene, tables, &brought)?;
        check(alloc, scene, &settled, modules, &brought)?;
        Ok(Scopes {
            names,
            tables: settled.tables,
        })
    }

    /// What a name finds in a module of the set.
    pub fn look(&self, alloc: Global, module: u32, name: &Name) -> Result<Looked, OutOfMemory>
        ensures { (world : World) (entities : List Declared) → Holds self.now world entities
            → «module» < length world.names
            → IfOk result (λ looked. looked ≡ look world entities «module» name.now.form) }
    {
        let view = View {
            names: &self.names,
            tables: &self.tables,
        };
        let looked = looking::look(alloc, view, module as usize, &name.form)?;
        Ok(looked)
    }
}

fn copies(alloc: Global, names: &[ModuleName]) -> Result<Vec<ModuleName>, AllocError>
    ensures { IfOk result (λ copied. copied.items ≡ names.now) }
{
    let mut copied = Vec::new(alloc);
    for name in names {
        let one = name.copy(alloc)?;
        copied.push(one)?;
    }
    Ok(copied)
}

/// What each module brings.
fn brought_of_all<'a>(
    alloc: Global,
    names: &[ModuleName],
    modules: &'a [Module],
) -> Result<Vec<Vec<Bringing<'a>>>, AllocError>
    ensures { IfOk result (λ all. map (λ one. map bringing_of one.items) all.items
        ≡ brought_all (firsts same_name names.now) names.now modules.now) }
{
    let indices = indices_of(alloc, names)?;
    let mut all = Vec::new(alloc);
    for index in 0..modules.len() {
        if let Some(name) = names.get(index) {
            let one = brought(alloc, &indices, name, &modules[index])?;
            all.push(one)?;
        }
    }
    Ok(all)
}

fn indices_of(alloc: Global, names: &[ModuleName]) -> Result<IndexSet<ModuleName>, AllocError>
    ensures { IfOk result (λ indices. indices.keys ≡ firsts same_name names.now) }
{
    let mut indices = IndexSet::new(alloc);
    for name in names {
        let copied = name.copy(alloc)?;
        indices.insert(copied)?;
    }
    Ok(indices)
}

/// The entities of each module, and behind them those of the prelude.
fn pieces_of<'a>(alloc: Global, modules: &'a [Module]) -> Result<Vec<Piece<'a>>, AllocError>
    ensures { IfOk result (λ pieces. ArePieces
        (entities_from 0 (map (λ one. (module_of one).declarations) modules.now) ++ prelude (length modules.now) ∷ [])
        pieces.items) }
{
    let mut pieces = Vec::new(alloc);
    for index in 0..modules.len() {
        let piece = declare(alloc, number_of(index)?, modules[index].decls.list())?;
        pieces.push(piece)?;
    }
    let piece = prelude(alloc, number_of(modules.len())?)?;
    pieces.push(piece)?;
    Ok(pieces)
}

/// Settles the modules in an order that their imports allow.
fn settle(
    alloc: Global,
    scene: Scene,
    tables: Vec<Table>,
    brought: &[Vec<Bringing>],
) -> Result<Settled, AllocError>
    requires within { AreWithin (map (λ one. map (λ bringing. bringing.from) one.items) brought.now) }
    requires acyclic { HasNoCycle (map (λ one. map (λ bringing. bringing.from) one.items) brought.now) }
    ensures { (world : World) (pieces : List (List Declared)) → Describes world pieces scene.entry
        → Hold world tables.items pieces → NoneHidden tables.items
        → world.brings ≡ map (λ one. map bringing_of one.items) brought.now
        → length world.brings ≡ length world.names
        → IfOk result (AreSettled world pieces) }
{
    let links = links_of(alloc, brought)?;
    let order = order(alloc, &links)?;
    settle_all(alloc, scene, tables, &order)
}

/// For each module those from which something is brought.
fn links_of(alloc: Global, brought: &[Vec<Bringing>]) -> Result<Vec<Vec<usize>>, AllocError>
    ensures { IfOk result (λ links. map (λ targets. targets.items) links.items
        ≡ map (λ one. map (λ bringing. bringing.from) one.items) brought.now) }
{
    let mut links = Vec::new(alloc);
    for one in brought {
        let targets = sources(alloc, one)?;
        links.push(targets)?;
    }
    Ok(links)
}

/// The modules from which something is brought.
fn sources(alloc: Global, brought: &[Bringing]) -> Result<Vec<usize>, AllocError>
    ensures { IfOk result (λ sources. sources.items ≡ map (λ one. one.from) brought.now) }
{
    let mut sources = Vec::new(alloc);
    for bringing in brought {
        sources.push(bringing.from)?;
    }
    Ok(sources)
}

/// The tables of the modules, and behind them that of the prelude; and what is written in each.
fn tables_of<'a>(
    alloc: Global,
    pieces: Vec<Piece<'a>>,
    brought: &[Vec<Bringing<'a>>],
) -> Result<(Vec<Table>, Vec<Written<'a>>), AllocError>
    ensures { (world : World) (all : List (List Declared))
        → world.brings ≡ map (λ one. map bringing_of one.items) brought.now
        → ArePieces all pieces.entry.items → AreInside 0 all
        → IfOk result (λ made. AreMade world all made.0.items made.1.items) }
{
    let mut tables = Vec::new(alloc);
    let mut written = Vec::new(alloc);
    for piece in pieces {
        let reaches = reaches_at(alloc, tables.len(), brought)?;
        let table = table_of(alloc, piece.entities, reaches)?;
        tables.push(table)?;
        written.push(piece.written)?;
    }
    Ok((tables, written))
}

/// What a module sees. Past the last of those that bring something nothing is brought.
fn reaches_at(
    alloc: Global,
    index: usize,
    brought: &[Vec<Bringing>],
) -> Result<Vec<Reach>, AllocError>
    ensures { IfOk result (λ all. AreReaches index
        (slice_index_or (map (λ one. map bringing_of one.items) brought.now) index []) all.items) }
{
    match brought.get(index) {
        Some(brought) => reaches(alloc, index, brought),
        None => reaches(alloc, index, &[]),
    }
}

fn table_of(alloc: Global, entities: Vec<Entity>, reaches: Vec<Reach>) -> Result<Table, AllocError>
    ensures own { IfOk result (λ table. table.own ≡ entities.items) }
    ensures reaches { IfOk result (λ table. table.reaches.items ≡ reaches.items) }
    ensures hidden { IfOk result (λ table. table.hidden.items ≡ replicate (length entities.items) false) }
{
    let hidden = unset_flags(alloc, entities.len())?;
    let own = Own::of(alloc, entities)?;
    Ok(Table {
        own,
        reaches,
        hidden,
    })
}

/// Answers the first fault, if there is one.
fn check(
    alloc: Global,
    scene: Scene,
    settled: &Settled,
    modules: &[Module],
    brought: &[Vec<Bringing>],
) -> Result<(), ScopeFault>
    ensures sound { (world : World) (pieces : List (List Declared)) → AreSettled world pieces settled.now
        → AreWritten pieces scene.entry.written.now → length modules.now < length pieces
        → IfOk result (λ _. faults_in world pieces (map (λ one. map bringing_of one.items) brought.now) 0 modules.now
        ≡ []) }
    ensures fault { (world : World) (pieces : List (List Declared)) → AreSettled world pieces settled.now
        → AreWritten pieces scene.entry.written.now → length modules.now < length pieces
        → IfErr result (Fails (faults_in world pieces (map (λ one. map bringing_of one.items) brought.now) 0
        modules.now)) }
{
    for index in 0..modules.len() {
        if let Some(fault) = fault_at(alloc, scene, settled, index, &modules[index], brought)? {
            return Err(fault);
        }
    }
    Ok(())
}

/// The least fault of a module, if it has one.
fn fault_at(
    alloc: Global,
    scene: Scene,
    settled: &Settled,
    index: usize,
    module: &Module,
    brought: &[Vec<Bringing>],
) -> Result<Option<ScopeFault>, AllocError>
    ensures { (world : World) (pieces : List (List Declared)) → AreSettled world pieces settled.now
        → AreWritten pieces scene.entry.written.now → index < length pieces
        → IfOk result (λ least. least ≡ least_onto None (faults_of world pieces
        (slice_index_or (map (λ one. map bringing_of one.items) brought.now) index []) index «module».now)) }
{
    let places = places_at(scene, index);
    match brought.get(index) {
        Some(brought) => module_fault(alloc, settled, index, places, module, brought),
        None => module_fault(alloc, settled, index, places, module, &[]),
    }
}

/// The places of the entities of a module.
fn places_at<'a>(scene: Scene<'a>, index: usize) -> &'a [u32]
    ensures { result.now ≡ places_in (slice_get scene.entry.written.now index) }
{
    match scene.written.get(index) {
        Some(written) => &written.places,
        None => &[],
    }
}
