ghost use Rattle.std.specs.Prelude.{◌≡◌, [], IfOk};
ghost use Rattle.expression_grammar.specs.inside.Machine.{wanted};
ghost use Rattle.module_grammar.specs.inside.ModuleStates.{expression, annotations_begun};
ghost use Rattle.mdl_grammar.specs.inside.ModuleViews.{position_of, site_of, holder_of};

use crate::module_state::{AnnotationPosition, Holder, Position, Site};
use expression_grammar::mode::Mode;
use std::alloc::{AllocError, Global};

/// An expression is wanted here.
#[tactic(auto, using(crate::proofs::ReaderLaws::stack_laws))]
pub fn expression_wanted(alloc: Global, site: Site) -> Result<Position, AllocError>
    ensures { IfOk result (λ made. position_of made ≡ expression (site_of site) wanted []) }
{
    let site = Box::new(alloc, site)?;
    Ok(Position::Expression {
        site,
        mode: Mode::Wanted,
        frames: Vec::new(alloc),
    })
}

/// The first `[` of annotations.
pub fn begin_annotations(alloc: Global, holder: Holder) -> Result<Position, AllocError>
    ensures { IfOk result (λ made. position_of made ≡ annotations_begun (holder_of holder)) }
{
    let holder = Box::new(alloc, holder)?;
    Ok(Position::Annotation(AnnotationPosition::AnnotationsBegun(holder)))
}
