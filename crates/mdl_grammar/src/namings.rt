ghost use Rattle.std.specs.Prelude.{◌≡◌, suc, [], ◌∷◌, ◌++◌, Some, None};
ghost use Rattle.expression_grammar.specs.inside.Machine.{ident_at};
ghost use Rattle.module_grammar.specs.inside.ModuleStates.{naming_step as machine_naming, unnamed, parted};
ghost use Rattle.module_grammar.specs.inside.ModuleStates.{up_steps as machine_up_steps};
ghost use Rattle.mdl_grammar.specs.inside.ModuleViews.{NamingCame, naming_of};
ghost use Rattle.expression_grammar.specs.inside.SortViews.{sort_view};

use crate::module_state::{ModuleStop, Naming};
use case_table::Text;
use expression_grammar::sort::Sort;
use expression_grammar::wanted::ident;
use mdl_syntax::{Ident, Lead, Span};
use std::alloc::Global;

/// What a token makes of a name of a module, where the name goes on with it.
pub fn naming_step(
    alloc: Global,
    naming: Naming,
    sort: Sort<'_>,
    place: Span,
) -> Result<Option<Naming>, ModuleStop>
    ensures { NamingCame result (machine_naming (naming_of naming) (sort_view sort.entry) place) }
{
    match naming {
        Naming::Unnamed => unnamed_step(alloc, sort, place),
        Naming::OneDot { at } => match sort {
            Sort::Dot => Ok(Some(Naming::TwoDots { steps: 0, at })),
            Sort::DoubleColon => Ok(Some(Naming::Led {
                lead: Lead::Here,
                at,
            })),
            _ => Ok(None),
        },
        Naming::TwoDots { steps, at } => match sort {
            Sort::DoubleColon => up_steps(steps, at),
            _ => Ok(None),
        },
        Naming::UpSteps { steps, at } => match sort {
            Sort::Dot => Ok(Some(Naming::OneDotBehind { steps, at })),
            Sort::Identifier(text) => first_part(alloc, Lead::Up(steps), at, text, place),
            _ => Ok(None),
        },
        Naming::OneDotBehind { steps, at } => match sort {
            Sort::Dot => Ok(Some(Naming::TwoDots { steps, at })),
            _ => Ok(None),
        },
        Naming::Led { lead, at } => match sort {
            Sort::Identifier(text) => first_part(alloc, lead, at, text, place),
            _ => Ok(None),
        },
        Naming::Parted {
            lead,
            at,
            parts,
            end,
        } => match sort {
            Sort::DoubleColon => Ok(Some(Naming::OpenEnded {
                lead,
                at,
                parts,
                end,
            })),
            _ => Ok(refused_parts(parts)),
        },
        Naming::OpenEnded {
            lead,
            at,
            parts,
            ..
        } => match sort {
            Sort::Identifier(text) => next_part(lead, at, parts, text, place),
            _ => Ok(refused_parts(parts)),
        },
    }
}

/// The first token of a name of a module.
fn unnamed_step(alloc: Global, sort: Sort<'_>, place: Span) -> Result<Option<Naming>, ModuleStop>
    ensures { NamingCame result (machine_naming unnamed (sort_view sort.entry) place) }
{
    match sort {
        Sort::Dot => Ok(Some(Naming::OneDot { at: place.at })),
        Sort::DoubleColon => Ok(Some(Naming::Led {
            lead: Lead::Absolute,
            at: place.at,
        })),
        Sort::Identifier(text) => first_part(alloc, Lead::Bare, place.at, text, place),
        _ => Ok(None),
    }
}

/// One step up more. More steps than there are 32-bit numbers are want of memory.
fn up_steps(steps: u32, at: u32) -> Result<Option<Naming>, ModuleStop>
    ensures { NamingCame result (Some (machine_up_steps (suc steps) at)) }
{
    match steps.checked_add(1) {
        Some(steps) => Ok(Some(Naming::UpSteps { steps, at })),
        None => Err(ModuleStop::OutOfMemory),
    }
}

/// No name goes on so.
fn refused_parts(_parts: Vec<Ident>) -> Option<Naming>
    ensures { result ≡ None }
{
    None
}

/// A name with one part more.
fn next_part(
    lead: Lead,
    at: u32,
    parts: Vec<Ident>,
    text: &Text,
    place: Span,
) -> Result<Option<Naming>, ModuleStop>
    ensures { NamingCame result
        (Some (parted lead at (parts.items ++ ident_at text.now place ∷ []) place.end)) }
{
    let mut parts = parts;
    parts.push(ident(text, place)?)?;
    Ok(Some(Naming::Parted {
        lead,
        at,
        parts,
        end: place.end,
    }))
}

/// A name with its first part.
fn first_part(
    alloc: Global,
    lead: Lead,
    at: u32,
    text: &Text,
    place: Span,
) -> Result<Option<Naming>, ModuleStop>
    ensures { NamingCame result (Some (parted lead at (ident_at text.now place ∷ []) place.end)) }
{
    let mut parts = Vec::with_capacity(alloc, 1)?;
    parts.push(ident(text, place)?)?;
    Ok(Some(Naming::Parted {
        lead,
        at,
        parts,
        end: place.end,
    }))
}
