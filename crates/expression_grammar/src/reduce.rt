ghost use Rattle.std.specs.Prelude.{◌≡◌, IfOk};
ghost use Rattle.mdl_syntax.specs.Trees.{tree_of};
ghost use Rattle.expression_grammar.specs.inside.Machine.{is_tight, ended, reduced};
ghost use Rattle.expression_grammar.specs.inside.Views.{frame_of, stack_of, tight_top};

use crate::frame::Frame;
use crate::operand::Operand;
use std::alloc::{AllocError, Global};

/// Whether a frame holds the operand before it at least as tight as a word of this level grips it.
pub fn is_tight(grip: u8, frame: &Frame) -> bool
    ensures { result ≡ is_tight grip (frame_of frame.now) }
{
    match frame {
        Frame::Unary { .. } => grip <= 12,
        Frame::Infix { level, .. } => grip <= *level,
        Frame::Colon { .. } => grip <= 1,
        Frame::Body { .. } => grip == 0,
        Frame::Parentheses { .. } => false,
        Frame::Question { .. } => false,
        Frame::Index { .. } => false,
        Frame::Arguments { .. } => false,
        Frame::Elements { .. } => false,
        Frame::Let { .. } => false,
        Frame::Initializer { .. } => false,
    }
}

/// Whether the innermost frame is tight.
#[tactic(auto, using(crate::proofs::StackLaws::stack_laws))]
fn is_top_tight(grip: u8, frames: &[Frame]) -> bool
    ensures { result ≡ tight_top grip (stack_of frames.now) }
{
    match frames.split_last() {
        Some((frame, _)) => is_tight(grip, frame),
        None => false,
    }
}

/// The expression of a frame that ends with this operand.
fn end_frame(alloc: Global, frame: Frame, operand: Operand) -> Result<Operand, AllocError>
    ensures { IfOk result (λ whole. tree_of whole ≡ ended (frame_of frame) (tree_of operand)) }
{
    match frame {
        Frame::Unary { op, at } => Operand::unary(alloc, op, at, operand),
        Frame::Infix { op, left, .. } => Operand::binary(alloc, op, left, operand),
        Frame::Colon { test, yes } => Operand::conditional(alloc, test, yes, operand),
        Frame::Body { held } => {
            Operand::binding(alloc, held.at, held.braces, held.initializers, operand)
        }
        Frame::Parentheses { .. } => Ok(operand),
        Frame::Question { .. } => Ok(operand),
        Frame::Index { .. } => Ok(operand),
        Frame::Arguments { .. } => Ok(operand),
        Frame::Elements { .. } => Ok(operand),
        Frame::Let { .. } => Ok(operand),
        Frame::Initializer { .. } => Ok(operand),
    }
}

/// Ends the frames that are tight.
#[tactic(auto, using(crate::proofs::StackLaws::stack_laws))]
pub fn reduce(
    alloc: Global,
    grip: u8,
    operand: Operand,
    frames: &mut Vec<Frame>,
) -> Result<Operand, AllocError>
    ensures { IfOk result (λ whole. reduced grip (tree_of operand) (stack_of frames.old.items)
        ≡ (tree_of whole, stack_of frames.new.items)) }
{
    let mut whole = operand;
    while is_top_tight(grip, frames.as_slice()) {
        let Some(frame) = frames.pop() else {
            return Ok(whole);
        };
        whole = end_frame(alloc, frame, whole)?;
    }
    Ok(whole)
}
