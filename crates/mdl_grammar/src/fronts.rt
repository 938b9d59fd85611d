ghost use Rattle.std.specs.Prelude.{◌≡◌, List, Some, None, IfOk};
ghost use Rattle.expression_grammar.specs.inside.Machine.{Step};
ghost use Rattle.module_grammar.specs.inside.ModuleMachine.{front_goes as machine_front_goes};
ghost use Rattle.module_grammar.specs.inside.ModuleMachine.{front_outcome as machine_front_outcome};
ghost use Rattle.module_grammar.specs.inside.ModuleMachine.{named_state as machine_named_state};
ghost use Rattle.module_grammar.specs.inside.ModuleStates.{on, within};
ghost use Rattle.module_grammar.specs.inside.ModuleMachine.{deferred_owner as machine_deferred_owner};
ghost use Rattle.module_grammar.specs.inside.ModuleMachine.{typed_step as machine_typed, front_step as machine_front};
ghost use Rattle.module_grammar.specs.inside.ModuleMachine.{first_front_step as machine_first_front};
ghost use Rattle.module_grammar.specs.inside.ModuleStates.{Begun as MachineBegun};
ghost use Rattle.mdl_grammar.specs.inside.ModuleViews.{front_of, ModuleCame, begun_of, fronting_of, owner_of};
ghost use Rattle.mdl_grammar.specs.inside.ModuleViews.{position_of};
ghost use Rattle.mdl_grammar.specs.inside.ModuleViews.{deferred_fronting};
ghost use Rattle.expression_grammar.specs.declared.frame.Frame.{Frame as HeldFrame};
ghost use Rattle.expression_grammar.specs.inside.Views.{Came, head_of, mode_of};
ghost use Rattle.expression_grammar.specs.inside.SortViews.{sort_view};

use crate::module_state::{
    Begun, Front, Fronted, Fronting, FunctionPosition, ModuleStop, Named, Owner, Position,
    TypePosition,
};
use expression_grammar::bindings::{head_step, type_step};
use expression_grammar::frame::Head;
use expression_grammar::mode::{Mode, Stop};
use expression_grammar::sort::Sort;
use expression_grammar::step::mode_step;
use mdl_syntax::{Ident, Span, TypeTree};
use std::alloc::{AllocError, Global};

/// The first token of a declaration that begins with a type, with its number.
#[tactic(auto, using(crate::proofs::ReaderLaws::stack_laws))]
pub fn typed_step(
    alloc: Global,
    token: u32,
    begun: &Begun,
    at: u32,
    exported: bool,
    sort: Sort<'_>,
    place: Span,
) -> Result<Position, ModuleStop>
    ensures { ModuleCame result begun.now (machine_typed token (begun_of begun.now) at exported
        (sort_view sort.entry) place) }
{
    let head = Head {
        at: place.at,
        frequency: None,
    };
    let frames = Vec::new(alloc);
    let made = type_step(alloc, head, &frames, sort, place);
    let of = Fronting::Declaration { at, exported };
    front_begins(alloc, token, begun, of, made)
}

/// The first token of a parameter or a field, with its number.
#[tactic(auto, using(crate::proofs::ReaderLaws::stack_laws))]
pub fn first_front_step(
    alloc: Global,
    token: u32,
    begun: &Begun,
    of: Fronting,
    sort: Sort<'_>,
    place: Span,
) -> Result<Position, ModuleStop>
    ensures { ModuleCame result begun.now (machine_first_front token (begun_of begun.now) (fronting_of of)
        (sort_view sort.entry) place) }
{
    let frames = Vec::new(alloc);
    let made = head_step(alloc, &frames, sort, place);
    front_begins(alloc, token, begun, of, made)
}

/// A token within a type or behind one, with its number.
#[tactic(auto, using(crate::proofs::ReaderLaws::stack_laws))]
pub fn front_step(
    alloc: Global,
    limit: u32,
    token: u32,
    begun: &Begun,
    of: Box<Fronting>,
    mode: Mode,
    sort: Sort<'_>,
    place: Span,
) -> Result<Position, ModuleStop>
    ensures { ModuleCame result begun.now (machine_front limit token (begun_of begun.now) (fronting_of of.value)
        (mode_of mode) (sort_view sort.entry) place) }
{
    let mut frames = Vec::new(alloc);
    let made = mode_step(alloc, limit, mode, &mut frames, sort, place);
    front_outcome(alloc, token, begun, of, made)
}

/// What the first token of a front comes to.
fn front_begins(
    alloc: Global,
    token: u32,
    begun: &Begun,
    of: Fronting,
    made: Result<Mode, Stop>,
) -> Result<Position, ModuleStop>
    ensures { (frames : List HeldFrame) (step : Step) → Came made frames step
        → ModuleCame result begun.now (machine_front_outcome token (begun_of begun.now) (fronting_of of) step) }
{
    let of = Box::new(alloc, of)?;
    front_outcome(alloc, token, begun, of, made)
}

fn front_outcome(
    alloc: Global,
    token: u32,
    begun: &Begun,
    of: Box<Fronting>,
    made: Result<Mode, Stop>,
) -> Result<Position, ModuleStop>
    ensures { (frames : List HeldFrame) (step : Step) → Came made frames step
        → ModuleCame result begun.now (machine_front_outcome token (begun_of begun.now) (fronting_of of.value) step) }
{
    match made {
        Ok(mode) => {
            let position = front_goes(alloc, token, of, mode)?;
            Ok(position)
        }
        Err(Stop::Bad) => Err(ModuleStop::Bad),
        Err(Stop::Deep) => Err(ModuleStop::Deep),
        Err(Stop::LeftOut(word)) => Err(ModuleStop::LeftOut(word)),
        Err(Stop::OutOfMemory) => Err(ModuleStop::OutOfMemory),
    }
}

/// A type goes on, or its name has come.
fn front_goes(
    alloc: Global,
    token: u32,
    of: Box<Fronting>,
    mode: Mode,
) -> Result<Position, AllocError>
    ensures { IfOk result (λ made. (begun : MachineBegun) → machine_front_goes token begun (fronting_of of.value)
        (mode_of mode) ≡ on (within begun (position_of made))) }
{
    match mode {
        Mode::EqualsWanted { head, ty, name } => {
            let position = named(alloc, Box::into_inner(of), head, ty, name)?;
            Ok(position)
        }
        Mode::DeferredWanted { head, name } => {
            let of = Box::new(alloc, deferred(Box::into_inner(of), token))?;
            Ok(Position::Fronting {
                of,
                mode: Mode::DeferredWanted { head, name },
            })
        }
        other => Ok(Position::Fronting { of, mode: other }),
    }
}

/// A type and its name.
fn named(
    alloc: Global,
    of: Fronting,
    head: Head,
    ty: TypeTree,
    name: Ident,
) -> Result<Position, AllocError>
    ensures { IfOk result (λ made. (begun : MachineBegun) → within begun (position_of made)
        ≡ machine_named_state begun (fronting_of of) (head_of head) ty name) }
{
    match of {
        Fronting::Declaration { at, exported } => {
            let fronted = Fronted {
                named: Named { at, exported, name },
                ty,
                deferred: None,
            };
            let fronted = Box::new(alloc, fronted)?;
            Ok(Position::Function(FunctionPosition::Declared(fronted)))
        }
        Fronting::Parameter { owner, parameters } => {
            let front = front_from(alloc, head, ty, name)?;
            Ok(Position::Function(FunctionPosition::ParameterRead {
                owner,
                parameters,
                front,
            }))
        }
        Fronting::Field(held) => {
            let front = front_from(alloc, head, ty, name)?;
            Ok(Position::Type(TypePosition::FieldRead { held, front }))
        }
    }
}

fn front_from(
    alloc: Global,
    head: Head,
    ty: TypeTree,
    name: Ident,
) -> Result<Box<Front>, AllocError>
    ensures { IfOk result (λ made. front_of made.value
        ≡ record { at = head.at; frequency = head.frequency; ty = ty; name = name }) }
{
    let front = Front {
        at: head.at,
        frequency: head.frequency,
        ty,
        name,
    };
    let front = Box::new(alloc, front)?;
    Ok(front)
}

/// A size is deferred here: of those of a function's parameters the first place is kept.
fn deferred(of: Fronting, token: u32) -> Fronting
    ensures { fronting_of result ≡ deferred_fronting token (fronting_of of) }
{
    match of {
        Fronting::Parameter { owner, parameters } => Fronting::Parameter {
            owner: deferred_owner(owner, token),
            parameters,
        },
        other => other,
    }
}

fn deferred_owner(owner: Owner, token: u32) -> Owner
    ensures { owner_of result ≡ machine_deferred_owner (owner_of owner) token }
{
    match owner {
        Owner::Function(fronted) => {
            let mut fronted = fronted;
            if fronted.deferred.is_none() {
                fronted.deferred = Some(token);
            }
            Owner::Function(fronted)
        }
        Owner::Annotation(named) => Owner::Annotation(named),
    }
}
