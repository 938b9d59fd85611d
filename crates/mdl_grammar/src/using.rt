ghost use Rattle.std.specs.Prelude.{Some, None};
ghost use Rattle.module_grammar.specs.inside.ModuleMachine.{used_ends as machine_used_ends};
ghost use Rattle.module_grammar.specs.inside.ModuleMachine.{using_step as machine_using};
ghost use Rattle.module_grammar.specs.inside.ModuleMachine.{used_wanted_step as machine_used_wanted};
ghost use Rattle.module_grammar.specs.inside.ModuleMachine.{used_read_step as machine_used_read};
ghost use Rattle.module_grammar.specs.inside.ModuleMachine.{used_next_step as machine_used_next};
ghost use Rattle.module_grammar.specs.inside.ModuleMachine.{used_all_step as machine_used_all};
ghost use Rattle.mdl_grammar.specs.inside.ModuleViews.{ModuleCame, begun_of, naming_of};
ghost use Rattle.mdl_grammar.specs.inside.ModuleViews.{uses_text, uses_equals, uses_import, uses_on};
ghost use Rattle.expression_grammar.specs.inside.SortViews.{sort_view};

use crate::imports::with_import;
use crate::module_state::{
    Begun, ImportPosition, ModuleStop, Naming, Position, left_out_form, refused_naming,
};
use crate::namings::naming_step;
use case_table::Seq;
use expression_grammar::sort::Sort;
use expression_grammar::wanted::ident;
use mdl_lexer::mark;
use mdl_syntax::{Ident, Import, Lead, ModuleRef, Span};
use std::alloc::Global;

/// The token behind `using`, within its name or behind it.
pub fn using_step(
    alloc: Global,
    begun: &Begun,
    at: u32,
    naming: Naming,
    sort: Sort<'_>,
    place: Span,
) -> Result<Position, ModuleStop>
    ensures { ModuleCame result begun.now (machine_using (begun_of begun.now) at (naming_of naming)
        (sort_view sort.entry) place) }
{
    match sort {
        Sort::Str(_) => using_text(alloc, begun, naming),
        Sort::Equals => using_equals(alloc, begun, naming),
        Sort::Import => using_import(begun, at, naming),
        other => using_name(alloc, begun, at, naming, other, place),
    }
}

/// A string behind `using`.
fn using_text(alloc: Global, begun: &Begun, naming: Naming) -> Result<Position, ModuleStop>
    ensures { ModuleCame result begun.now (uses_text (naming_of naming)) }
{
    match naming {
        Naming::Unnamed => Err(left_out_form(alloc, "string-name")),
        other => Err(refused_naming(other)),
    }
}

/// `=` behind one identifier.
fn using_equals(alloc: Global, begun: &Begun, naming: Naming) -> Result<Position, ModuleStop>
    ensures { ModuleCame result begun.now (uses_equals (naming_of naming)) }
{
    match naming {
        Naming::Parted {
            lead: Lead::Bare,
            parts,
            ..
        } => {
            if parts.len() != 1 {
                return Err(ModuleStop::Bad);
            }
            Err(left_out_form(alloc, "alias"))
        }
        other => Err(refused_naming(other)),
    }
}

/// `import` behind a whole name.
fn using_import(begun: &Begun, at: u32, naming: Naming) -> Result<Position, ModuleStop>
    ensures { ModuleCame result begun.now (uses_import (begun_of begun.now) at (naming_of naming)) }
{
    match naming {
        Naming::Parted {
            lead,
            at: from,
            parts,
            end,
        } => Ok(Position::Import(ImportPosition::UsedWanted {
            at,
            module: ModuleRef {
                lead,
                parts: Seq::of(parts),
                span: Span { at: from, end },
            },
        })),
        other => Err(refused_naming(other)),
    }
}

/// A token within the name.
fn using_name(
    alloc: Global,
    begun: &Begun,
    at: u32,
    naming: Naming,
    sort: Sort<'_>,
    place: Span,
) -> Result<Position, ModuleStop>
    ensures { ModuleCame result begun.now (uses_on (begun_of begun.now) at (naming_of naming)
        (sort_view sort.entry) place) }
{
    match naming_step(alloc, naming, sort, place)? {
        Some(naming) => Ok(Position::Import(ImportPosition::Using { at, naming })),
        None => Err(ModuleStop::Bad),
    }
}

/// The token behind the second `import`.
pub fn used_wanted_step(
    alloc: Global,
    begun: &Begun,
    at: u32,
    name: ModuleRef,
    sort: Sort<'_>,
    place: Span,
) -> Result<Position, ModuleStop>
    ensures { ModuleCame result begun.now
        (machine_used_wanted (begun_of begun.now) at name (sort_view sort.entry) place) }
{
    match sort {
        Sort::Identifier(text) => {
            let mut names = Vec::new(alloc);
            names.push(ident(text, place)?)?;
            Ok(Position::Import(ImportPosition::UsedRead {
                at,
                module: name,
                names,
            }))
        }
        Sort::BinaryOperator { op: mark::STAR, .. } => Ok(Position::Import(ImportPosition::UsedAll {
            at,
            module: name,
        })),
        Sort::Str(_) => Err(left_out_form(alloc, "string-name")),
        _ => Err(ModuleStop::Bad),
    }
}

/// The token behind a name that is used.
pub fn used_read_step(
    begun: &mut Begun,
    at: u32,
    name: ModuleRef,
    names: Vec<Ident>,
    sort: Sort<'_>,
    place: Span,
) -> Result<Position, ModuleStop>
    ensures { ModuleCame result begun.new
        (machine_used_read (begun_of begun.old) at name names.items (sort_view sort.entry) place) }
{
    match sort {
        Sort::Comma => Ok(Position::Import(ImportPosition::UsedNext {
            at,
            module: name,
            names,
        })),
        Sort::Semicolon => used_ends(begun, at, name, Some(Seq::of(names)), place),
        _ => Err(ModuleStop::Bad),
    }
}

/// The token behind `,`.
pub fn used_next_step(
    begun: &Begun,
    at: u32,
    name: ModuleRef,
    names: Vec<Ident>,
    sort: Sort<'_>,
    place: Span,
) -> Result<Position, ModuleStop>
    ensures { ModuleCame result begun.now
        (machine_used_next (begun_of begun.now) at name names.items (sort_view sort.entry) place) }
{
    match sort {
        Sort::Identifier(text) => {
            let mut names = names;
            names.push(ident(text, place)?)?;
            Ok(Position::Import(ImportPosition::UsedRead {
                at,
                module: name,
                names,
            }))
        }
        _ => Err(ModuleStop::Bad),
    }
}

/// The token behind `*`.
pub fn used_all_step(
    begun: &mut Begun,
    at: u32,
    name: ModuleRef,
    sort: Sort<'_>,
    place: Span,
) -> Result<Position, ModuleStop>
    ensures { ModuleCame result begun.new
        (machine_used_all (begun_of begun.old) at name (sort_view sort.entry) place) }
{
    match sort {
        Sort::Semicolon => used_ends(begun, at, name, None, place),
        _ => Err(ModuleStop::Bad),
    }
}

/// `;` behind what is used.
fn used_ends(
    begun: &mut Begun,
    at: u32,
    name: ModuleRef,
    names: Option<Seq<Ident>>,
    place: Span,
) -> Result<Position, ModuleStop>
    ensures { ModuleCame result begun.new (machine_used_ends (begun_of begun.old) at name names place) }
{
    let import = Import::Using {
        module: name,
        names,
        span: Span { at, end: place.end },
    };
    with_import(begun, import, place.end)
}
