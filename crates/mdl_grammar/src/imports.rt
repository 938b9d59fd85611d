ghost use Rattle.std.specs.Prelude.{◌≡◌, Some, None};
ghost use Rattle.module_grammar.specs.inside.ModuleMachine.{import_step as machine_import};
ghost use Rattle.module_grammar.specs.inside.ModuleMachine.{import_ends as machine_import_ends};
ghost use Rattle.module_grammar.specs.inside.ModuleMachine.{import_item as machine_item};
ghost use Rattle.module_grammar.specs.inside.ModuleStates.{on};
ghost use Rattle.module_grammar.specs.inside.ModuleStates.{with_import as machine_with_import};
ghost use Rattle.module_grammar.specs.inside.ModuleStates.{qualified_from as machine_qualified};
ghost use Rattle.mdl_grammar.specs.inside.ModuleViews.{ModuleCame, begun_of, naming_of, item_of, all_item_of};
ghost use Rattle.mdl_grammar.specs.inside.ModuleViews.{imports_all, imports_text, imports_on, imports_operator};
ghost use Rattle.mdl_grammar.specs.inside.ModuleViews.{imports_by};
ghost use Rattle.expression_grammar.specs.inside.SortViews.{sort_view};

use crate::module_state::{
    Begun, ImportPosition, ModuleStop, Naming, Position, left_out_form, refused_naming,
};
use crate::namings::naming_step;
use case_table::Seq;
use expression_grammar::sort::Sort;
use mdl_lexer::mark;
use mdl_syntax::{Ident, Import, Lead, ModuleRef, Qualified, Span};
use std::alloc::Global;

/// The token behind `import`, within one of its names or behind it.
pub fn import_step(
    alloc: Global,
    begun: &mut Begun,
    at: u32,
    items: Vec<Qualified>,
    naming: Naming,
    sort: Sort<'_>,
    place: Span,
) -> Result<Position, ModuleStop>
    ensures { ModuleCame result begun.new (machine_import (begun_of begun.old) at items.items (naming_of naming)
        (sort_view sort.entry) place) }
{
    by_sort(alloc, begun, at, items, naming, sort, place)
}

fn by_sort(
    alloc: Global,
    begun: &mut Begun,
    at: u32,
    items: Vec<Qualified>,
    naming: Naming,
    sort: Sort<'_>,
    place: Span,
) -> Result<Position, ModuleStop>
    ensures { ModuleCame result begun.new (imports_by (begun_of begun.old) at items.items (naming_of naming)
        (sort_view sort.entry) place) }
{
    match sort {
        Sort::Comma => import_item(begun, at, items, naming, sort, place),
        Sort::Semicolon => import_item(begun, at, items, naming, sort, place),
        Sort::BinaryOperator { op, .. } => import_operator(begun, at, items, naming, op, place),
        Sort::Str(_) => import_text(alloc, begun, items, naming),
        other => importing(alloc, begun, at, items, naming, other, place),
    }
}

/// An operator behind a name, which may be `*`.
fn import_operator(
    begun: &Begun,
    at: u32,
    items: Vec<Qualified>,
    naming: Naming,
    op: u16,
    place: Span,
) -> Result<Position, ModuleStop>
    ensures { ModuleCame result begun.now (imports_operator (begun_of begun.now) at items.items (naming_of naming)
        op place) }
{
    if op != mark::STAR {
        return Err(refused_naming(naming));
    }
    import_all(begun, at, items, naming, place)
}

/// A token within a name.
fn importing(
    alloc: Global,
    begun: &Begun,
    at: u32,
    items: Vec<Qualified>,
    naming: Naming,
    sort: Sort<'_>,
    place: Span,
) -> Result<Position, ModuleStop>
    ensures { ModuleCame result begun.now (imports_on (begun_of begun.now) at items.items (naming_of naming)
        (sort_view sort.entry) place) }
{
    match naming_step(alloc, naming, sort, place)? {
        Some(naming) => Ok(Position::Import(ImportPosition::Importing { at, items, naming })),
        None => Err(ModuleStop::Bad),
    }
}

/// A string behind `import`.
fn import_text(
    alloc: Global,
    begun: &Begun,
    items: Vec<Qualified>,
    naming: Naming,
) -> Result<Position, ModuleStop>
    ensures { ModuleCame result begun.now (imports_text items.items (naming_of naming)) }
{
    match naming {
        Naming::Unnamed => {
            if !items.is_empty() {
                return Err(ModuleStop::Bad);
            }
            Err(left_out_form(alloc, "string-name"))
        }
        other => Err(refused_naming(other)),
    }
}

/// `,` or `;` behind a name.
fn import_item(
    begun: &mut Begun,
    at: u32,
    items: Vec<Qualified>,
    naming: Naming,
    sort: Sort<'_>,
    place: Span,
) -> Result<Position, ModuleStop>
    ensures { ModuleCame result begun.new (machine_item (begun_of begun.old) at items.items
        (item_of (naming_of naming)) (sort_view sort.entry) place) }
{
    match item_from(naming) {
        Some(item) => {
            let mut items = items;
            items.push(item)?;
            import_ends(begun, at, items, sort, place)
        }
        None => Err(ModuleStop::Bad),
    }
}

/// `*` behind a name.
fn import_all(
    begun: &Begun,
    at: u32,
    items: Vec<Qualified>,
    naming: Naming,
    place: Span,
) -> Result<Position, ModuleStop>
    ensures { ModuleCame result begun.now (imports_all (begun_of begun.now) at items.items
        (all_item_of (naming_of naming) place.end)) }
{
    match all_item(naming, place.end) {
        Some(item) => {
            let mut items = items;
            items.push(item)?;
            Ok(Position::Import(ImportPosition::Imported { at, items }))
        }
        None => Err(ModuleStop::Bad),
    }
}

/// The token behind a whole name.
pub fn import_ends(
    begun: &mut Begun,
    at: u32,
    items: Vec<Qualified>,
    sort: Sort<'_>,
    place: Span,
) -> Result<Position, ModuleStop>
    ensures { ModuleCame result begun.new (machine_import_ends (begun_of begun.old) at items.items
        (sort_view sort.entry) place) }
{
    match sort {
        Sort::Comma => Ok(Position::Import(ImportPosition::Importing {
            at,
            items,
            naming: Naming::Unnamed,
        })),
        Sort::Semicolon => {
            let import = Import::Import {
                items: Seq::of(items),
                span: Span { at, end: place.end },
            };
            with_import(begun, import, place.end)
        }
        _ => Err(ModuleStop::Bad),
    }
}

/// An import that ends here.
pub fn with_import(begun: &mut Begun, import: Import, end: u32) -> Result<Position, ModuleStop>
    ensures { ModuleCame result begun.new (on (machine_with_import (begun_of begun.old) import end)) }
{
    begun.imports.push(import)?;
    begun.end = end;
    Ok(Position::ItemWanted { early: true })
}

/// The module and its name that a whole name stands for.
fn item_from(naming: Naming) -> Option<Qualified>
    ensures { result ≡ item_of (naming_of naming) }
{
    match naming {
        Naming::Parted {
            lead,
            at,
            parts,
            end,
        } => qualified_from(lead, at, parts, end),
        other => no_item(other),
    }
}

/// The module all of whose names a name stands for, where `*` is behind `::`.
fn all_item(naming: Naming, star: u32) -> Option<Qualified>
    ensures { result ≡ all_item_of (naming_of naming) star }
{
    match naming {
        Naming::OpenEnded {
            lead,
            at,
            parts,
            end,
        } => Some(Qualified {
            module: ModuleRef {
                lead,
                parts: Seq::of(parts),
                span: Span { at, end },
            },
            name: None,
            span: Span { at, end: star },
        }),
        other => no_item(other),
    }
}

fn no_item(_naming: Naming) -> Option<Qualified>
    ensures { result ≡ None }
{
    None
}

/// The last part is a name of the module that the others name.
fn qualified_from(lead: Lead, at: u32, parts: Vec<Ident>, end: u32) -> Option<Qualified>
    ensures { result ≡ machine_qualified lead at parts.items end }
{
    let mut parts = parts;
    let name = parts.pop()?;
    let front_end = parts.last()?.span.end;
    Some(Qualified {
        module: ModuleRef {
            lead,
            parts: Seq::of(parts),
            span: Span { at, end: front_end },
        },
        name: Some(name),
        span: Span { at, end },
    })
}
