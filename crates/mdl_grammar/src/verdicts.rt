ghost use Rattle.std.specs.Prelude.{◌≡◌};
ghost use Rattle.module_grammar.specs.inside.ModuleMachine.{verdict_in as machine_verdict};
ghost use Rattle.module_grammar.specs.inside.ModuleMachine.{before_body as machine_before_body};
ghost use Rattle.module_grammar.specs.inside.ModuleMachine.{behind_parameter as machine_behind_parameter, if_deferred};
ghost use Rattle.module_grammar.specs.inside.ModuleMachine.{deferred_of_owner as machine_of_owner};
ghost use Rattle.module_grammar.specs.inside.ModuleMachine.{deferred_of_holder as machine_of_holder};
ghost use Rattle.mdl_grammar.specs.inside.ModuleViews.{position_of, owner_of, holder_of, verdict_view};
ghost use Rattle.expression_grammar.specs.inside.Views.{mode_of};

use crate::module_state::{Fronting, Holder, Owner, Position, Site};
use expression_grammar::mode::Mode;

/// What the last token means for sizes that are deferred.
#[derive(Clone, Copy, Debug)]
pub enum Verdict {
    /// None is left out.
    Passes,
    /// One is at this token.
    RefusedHere,
    /// One is at an earlier token.
    RefusedBefore(u32),
    /// One is at this token, unless an earlier one of the same head is.
    Undecided,
}

/// Sizes are left out, save in the parameters of a function until its body begins, and in those of an annotation.
#[tactic(auto, using(crate::proofs::ReaderLaws::stack_laws))]
pub fn verdict_in(position: &Position) -> Verdict
    ensures { verdict_view result ≡ machine_verdict (position_of position.now) }
{
    match position {
        Position::Fronting { of, mode } => match &**of {
            Fronting::Parameter { .. } => Verdict::Passes,
            Fronting::Declaration { .. } => if_deferred(mode, Verdict::RefusedHere),
            Fronting::Field(_) => if_deferred(mode, Verdict::RefusedHere),
        },
        Position::Expression { site, mode, frames } => match &**site {
            Site::FunctionBody { fronted, .. } => match mode {
                Mode::Wanted => {
                    if frames.is_empty() {
                        before_body(fronted.deferred)
                    } else {
                        Verdict::Passes
                    }
                }
                other => if_deferred(other, Verdict::RefusedHere),
            },
            Site::Default { owner, .. } => {
                if_deferred(mode, behind_parameter(deferred_of_owner(owner)))
            }
            Site::FieldDefault { .. } => if_deferred(mode, Verdict::RefusedHere),
            Site::Annotation { holder, .. } => {
                if_deferred(mode, behind_parameter(deferred_of_holder(holder)))
            }
            Site::Base { .. } => if_deferred(mode, Verdict::RefusedHere),
        },
        _ => Verdict::Passes,
    }
}

fn before_body(deferred: Option<u32>) -> Verdict
    ensures { verdict_view result ≡ machine_before_body deferred }
{
    match deferred {
        Some(at) => Verdict::RefusedBefore(at),
        None => Verdict::Passes,
    }
}

fn behind_parameter(deferred: Option<u32>) -> Verdict
    ensures { verdict_view result ≡ machine_behind_parameter deferred }
{
    match deferred {
        Some(_) => Verdict::Undecided,
        None => Verdict::RefusedHere,
    }
}

fn if_deferred(mode: &Mode, verdict: Verdict) -> Verdict
    ensures { verdict_view result ≡ if_deferred (mode_of mode.now) (verdict_view verdict) }
{
    match mode {
        Mode::DeferredWanted { .. } => verdict,
        _ => Verdict::Passes,
    }
}

/// The first size of a parameter that is deferred in the head of the function.
fn deferred_of_owner(owner: &Owner) -> Option<u32>
    ensures { result ≡ machine_of_owner (owner_of owner.now) }
{
    match owner {
        Owner::Function(fronted) => fronted.deferred,
        Owner::Annotation(_) => None,
    }
}

fn deferred_of_holder(holder: &Holder) -> Option<u32>
    ensures { result ≡ machine_of_holder (holder_of holder.now) }
{
    match holder {
        Holder::Parameter { owner, .. } => deferred_of_owner(owner),
        Holder::Function { fronted, .. } => fronted.deferred,
        _ => None,
    }
}
