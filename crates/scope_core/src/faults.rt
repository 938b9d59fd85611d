ghost use Rattle.std.specs.Prelude.{◌≡◌, ◌++◌, [], None, Some, List, map, slice_get, IfOk, OnOk};
ghost use Rattle.std.specs.List.{flat_map};
ghost use Rattle.mdl_syntax.specs.Modules.{parameter_of, declaration_of, module_of};
ghost use Rattle.scope_tables.specs.Entities.{Declared};
ghost use Rattle.scope_tables.specs.Visible.{World};
ghost use Rattle.scope_core.specs.ScopeFaults.{is_less, key_less, fault_key, twice_listed, parameters_of};
ghost use Rattle.scope_core.specs.ScopeFaults.{import_faults, twice_among, parameter_faults};
ghost use Rattle.scope_tables.specs.inside.Kinds.{has_none};
ghost use Rattle.scope_core.specs.inside.Lessening.{lesser, least_onto};
ghost use Rattle.scope_tables.specs.inside.Reaching.{bringing_of};
ghost use Rattle.scope_core.specs.inside.Rounds.{AreSettled, last_types, last_standing};
ghost use Rattle.scope_core.specs.inside.Noting.{NotesDeclared, is_twice};
ghost use Rattle.scope_core.specs.inside.Noting.{NotesBringing, NotesNames, NotesName, NotesUsed, NotesListed};
ghost use Rattle.scope_core.specs.inside.Noting.{missing_by, is_clash, joined};

use crate::fault::ScopeFault;
use crate::settled::Settled;
use case_table::Text;
use indexmap::{IndexMap, IndexSet};
use mdl_syntax::{Decl, Ident, Module, Param};
use scope_tables::brought::{Bringing, Names};
use scope_tables::declared::number_of;
use scope_tables::entity::Sort;
use scope_tables::kinds::{Kinds, NO_KINDS};
use scope_tables::tables::{Place, Table};
use std::alloc::{AllocError, Global};

/// The least fault of a module, if it has one.
pub fn module_fault(
    alloc: Global,
    settled: &Settled,
    index: usize,
    places: &[u32],
    module: &Module,
    brought: &[Bringing],
) -> Result<Option<ScopeFault>, AllocError>
    ensures { (world : World) (pieces : List (List Declared)) (own : List Declared)
        → AreSettled world pieces settled.now → slice_get pieces index ≡ Some own
        → places.now ≡ map (λ one. one.at) own
        → IfOk result (λ least. least ≡ least_onto None (import_faults (last_standing world pieces) index []
        (map bringing_of brought.now) ++ (twice_among (last_types world pieces) [] own
        ++ flat_map (parameter_faults index) (module_of «module».now).declarations))) }
{
    let mut least = None;
    let number = number_of(index)?;
    import_faults(alloc, &mut least, settled, index, number, brought)?;
    twice_declared(alloc, &mut least, settled, index, number, places)?;
    twice_in_lists(alloc, &mut least, number, module.decls.list())?;
    Ok(least)
}

/// Keeps the lesser fault.
fn note(least: &mut Option<ScopeFault>, fault: ScopeFault)
    ensures { least.new ≡ lesser least.old fault }
{
    let is_least = match least {
        Some(known) => is_less(fault, *known),
        None => true,
    };
    if is_least {
        *least = Some(fault);
    }
}

/// Whether a fault comes before another: by module, then by place, then by kind.
fn is_less(one: ScopeFault, other: ScopeFault) -> bool
    ensures { result ≡ is_less one other }
{
    is_key_less(key(one), key(other))
}

fn is_key_less(one: (u32, u32, u32), other: (u32, u32, u32)) -> bool
    ensures { result ≡ key_less one other }
{
    one.0 < other.0 || one.0 == other.0 && (one.1 < other.1 || one.1 == other.1 && one.2 < other.2)
}

/// What faults are ordered by.
fn key(fault: ScopeFault) -> (u32, u32, u32)
    ensures { result ≡ fault_key fault }
{
    match fault {
        ScopeFault::Twice { module, at } => (module, at, 0),
        ScopeFault::Unknown { module, at } => (module, at, 1),
        ScopeFault::NotExported { module, at } => (module, at, 2),
        ScopeFault::Clash { module, at } => (module, at, 3),
        ScopeFault::OutOfMemory => (0, 0, 0),
    }
}

/// Notes the declarations and values that stand behind another with which they may not stand together.
fn twice_declared(
    alloc: Global,
    least: &mut Option<ScopeFault>,
    settled: &Settled,
    module: usize,
    number: u32,
    places: &[u32],
) -> Result<(), AllocError>
    ensures { OnOk result ((world : World) (pieces : List (List Declared)) (own : List Declared)
        → AreSettled world pieces settled.now → slice_get pieces «module» ≡ Some own → number ≡ «module»
        → places.now ≡ map (λ one. one.at) own
        → least.new ≡ least_onto least.old (twice_among (last_types world pieces) [] own)) }
{
    match settled.tables.get(module) {
        Some(table) => {
            twice_in(alloc, least, settled, table, module, number, places)?;
            Ok(())
        }
        None => Ok(()),
    }
}

/// Notes those of a module that has this table.
fn twice_in(
    alloc: Global,
    least: &mut Option<ScopeFault>,
    settled: &Settled,
    table: &Table,
    module: usize,
    number: u32,
    places: &[u32],
) -> Result<(), AllocError>
    ensures { OnOk result ((world : World) (pieces : List (List Declared)) (own : List Declared)
        → AreSettled world pieces settled.now → slice_get pieces «module» ≡ Some own → number ≡ «module»
        → places.now ≡ map (λ one. one.at) own → slice_get settled.now.tables.items «module» ≡ Some table.now
        → least.new ≡ least_onto least.old (twice_among (last_types world pieces) [] own)) }
{
    let entities = table.own.list();
    let mut kinds = vec![in alloc; NO_KINDS; entities.len()]?;
    let mut seen: IndexSet<(usize, usize, bool)> = IndexSet::new(alloc);
    for index in 0..entities.len() {
        let entity = &entities[index];
        if let Some(at) = places.get(index) {
            if let Some(taken) = settled.taken(Place { module, index }) {
                let name = table.own.number_at(index);
                let fault = ScopeFault::Twice {
                    module: number,
                    at: *at,
                };
                note_declared(
                    least,
                    &mut kinds,
                    &mut seen,
                    name,
                    taken,
                    entity.sort,
                    fault,
                )?;
            }
        }
    }
    Ok(())
}

/// Notes a fault where what came before under the name of this number doesn't go with one more of this sort, or
/// something of it took the same.
fn note_declared(
    least: &mut Option<ScopeFault>,
    kinds: &mut [Kinds],
    seen: &mut IndexSet<(usize, usize, bool)>,
    name: usize,
    taken: usize,
    sort: Sort,
    fault: ScopeFault,
) -> Result<(), AllocError>
    ensures { OnOk result (NotesDeclared name taken sort fault least.old kinds.old seen.old.keys
        least.new kinds.new seen.new.keys) }
{
    let fresh = seen.insert((name, taken, sort == Sort::Intrinsic))?;
    if name < kinds.len() {
        let before = kinds[name];
        let together = before.and(Kinds::of(sort));
        kinds[name] = together;
        if is_twice(before, together, fresh) {
            note(least, fault);
        }
    }
    Ok(())
}

/// Whether something doesn't go with what came before under its name.
fn is_twice(before: Kinds, together: Kinds, fresh: bool) -> bool
    ensures { result ≡ is_twice before together fresh }
{
    !before.is_empty() && (!together.are_overloads() || !fresh)
}

/// Notes the parameters and fields of declarations that stand behind one of the same name.
fn twice_in_lists(
    alloc: Global,
    least: &mut Option<ScopeFault>,
    module: u32,
    decls: &[Decl],
) -> Result<(), AllocError>
    ensures { OnOk result (least.new
        ≡ least_onto least.old (flat_map (parameter_faults «module») (map declaration_of decls.now))) }
{
    for decl in decls {
        twice_listed(alloc, least, module, parameters(decl))?;
    }
    Ok(())
}

/// Notes the names that stand behind an equal one in a list of parameters or fields.
fn twice_listed(
    alloc: Global,
    least: &mut Option<ScopeFault>,
    module: u32,
    params: &[Param],
) -> Result<(), AllocError>
    ensures { OnOk result (least.new
        ≡ least_onto least.old (twice_listed «module» [] (map (λ param. param.name) params.now))) }
{
    let mut names: IndexSet<Text> = IndexSet::new(alloc);
    for param in params {
        if !names.insert(param.name.text.clone()?)? {
            note(
                least,
                ScopeFault::Twice {
                    module,
                    at: param.name.span.at,
                },
            );
        }
    }
    Ok(())
}

/// The parameters, or fields, of a declaration.
fn parameters(decl: &Decl) -> &[Param]
    ensures { map parameter_of result.now ≡ parameters_of (declaration_of decl.now) }
{
    match decl {
        Decl::Material { params, .. } => params.list(),
        Decl::Variant { .. } => &[],
        Decl::Function { params, .. } => params.list(),
        Decl::Struct { fields, .. } => fields.list(),
        Decl::Enum { .. } => &[],
        Decl::Annotation { params, .. } => params.list(),
    }
}

/// What earlier imports by `using` list under a name: the first module, whether there is another, and the sorts.
#[derive(Clone, Copy)]
struct Earlier {
    module: usize,
    more: bool,
    kinds: Kinds,
}

/// Notes the imported names that their module doesn't have or doesn't export, and those that stand for something else.
fn import_faults(
    alloc: Global,
    least: &mut Option<ScopeFault>,
    settled: &Settled,
    module: usize,
    number: u32,
    brought: &[Bringing],
) -> Result<(), AllocError>
    ensures { OnOk result ((world : World) (pieces : List (List Declared)) → AreSettled world pieces settled.now
        → number ≡ «module»
        → least.new ≡ least_onto least.old (import_faults (last_standing world pieces) number []
        (map bringing_of brought.now))) }
{
    let mut earlier: IndexMap<Text, Earlier> = IndexMap::new(alloc);
    for bringing in brought {
        bringing_faults(least, settled, module, number, &mut earlier, bringing)?;
    }
    Ok(())
}

fn bringing_faults(
    least: &mut Option<ScopeFault>,
    settled: &Settled,
    module: usize,
    number: u32,
    earlier: &mut IndexMap<Text, Earlier>,
    bringing: &Bringing,
) -> Result<(), AllocError>
    ensures { OnOk result (NotesBringing settled.now «module» number (bringing_of bringing.now) earlier.old.entries
        least.old earlier.new.entries least.new) }
{
    match bringing.names {
        Names::All => Ok(()),
        Names::One(name) => {
            name_faults(least, settled, module, number, earlier, bringing, name)?;
            Ok(())
        }
        Names::Listed(names) => {
            listed_faults(least, settled, module, number, earlier, bringing, names)?;
            Ok(())
        }
    }
}

fn listed_faults(
    least: &mut Option<ScopeFault>,
    settled: &Settled,
    module: usize,
    number: u32,
    earlier: &mut IndexMap<Text, Earlier>,
    bringing: &Bringing,
    names: &[Ident],
) -> Result<(), AllocError>
    ensures { OnOk result (NotesNames settled.now «module» number bringing.now.from bringing.now.used names.now
        earlier.old.entries least.old earlier.new.entries least.new) }
{
    for name in names {
        name_faults(least, settled, module, number, earlier, bringing, name)?;
    }
    Ok(())
}

/// Notes what is wrong with a name of an import, and if that is by `using`, that the name is listed.
fn name_faults(
    least: &mut Option<ScopeFault>,
    settled: &Settled,
    module: usize,
    number: u32,
    earlier: &mut IndexMap<Text, Earlier>,
    bringing: &Bringing,
    name: &Ident,
) -> Result<(), AllocError>
    ensures { OnOk result (NotesName settled.now «module» number bringing.now.from bringing.now.used name.now
        earlier.old.entries least.old earlier.new.entries least.new) }
{
    let there = settled.under(bringing.from, &name.text);
    note_missing(least, there.all, there.exported, number, name.span.at);
    if bringing.used && !there.exported.is_empty() {
        let own = settled.under(module, &name.text);
        let fault = ScopeFault::Clash {
            module: number,
            at: name.span.at,
        };
        note_used(
            least,
            earlier,
            own.all,
            there.exported,
            bringing.from,
            &name.text,
            fault,
        )?;
    }
    Ok(())
}

/// Notes that a name stands for nothing, or for nothing that is exported.
fn note_missing(least: &mut Option<ScopeFault>, all: Kinds, exported: Kinds, module: u32, at: u32)
    ensures { least.new ≡ least_onto least.old (missing_by «module» at (has_none all) (has_none exported)) }
{
    if all.is_empty() {
        note(least, ScopeFault::Unknown { module, at });
    } else if exported.is_empty() {
        note(least, ScopeFault::NotExported { module, at });
    }
}

/// Notes a fault where a name that `using` lists stands for something else too that doesn't go with it, and that it is
/// listed.
fn note_used(
    least: &mut Option<ScopeFault>,
    earlier: &mut IndexMap<Text, Earlier>,
    own: Kinds,
    exported: Kinds,
    from: usize,
    name: &Text,
    fault: ScopeFault,
) -> Result<(), AllocError>
    ensures { OnOk result (NotesUsed own exported from name.now fault earlier.old.entries least.old earlier.new.entries
        least.new) }
{
    let listed = earlier.get(name).copied();
    if is_clash(own, exported, listed, from) {
        note(least, fault);
    }
    note_listed(earlier, name, exported, from)?;
    Ok(())
}

/// Whether a name stands for something else too that doesn't go with it.
fn is_clash(own: Kinds, exported: Kinds, listed: Option<Earlier>, from: usize) -> bool
    ensures { result ≡ is_clash own exported listed from }
{
    match listed {
        Some(earlier) if earlier.more || earlier.module != from => {
            !own.and(exported).and(earlier.kinds).are_overloads()
        }
        _ => !own.is_empty() && !own.and(exported).are_overloads(),
    }
}

/// Notes that a name of a module is listed.
fn note_listed(
    earlier: &mut IndexMap<Text, Earlier>,
    name: &Text,
    kinds: Kinds,
    module: usize,
) -> Result<(), AllocError>
    ensures { OnOk result (NotesListed name.now kinds «module» earlier.old.entries earlier.new.entries) }
{
    if let Some(known) = earlier.get_mut(name) {
        *known = joined(*known, kinds, module);
        return Ok(());
    }
    let first = Earlier {
        module,
        more: false,
        kinds,
    };
    earlier.insert(name.clone()?, first)?;
    Ok(())
}

fn joined(known: Earlier, kinds: Kinds, module: usize) -> Earlier
    ensures { result ≡ joined (Some known) kinds «module» }
{
    Earlier {
        module: known.module,
        more: known.more || known.module != module,
        kinds: known.kinds.and(kinds),
    }
}
