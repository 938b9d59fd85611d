ghost use Rattle.std.specs.Prelude.{◌≡◌, length, nat_le, ◌+◌, suc};
ghost use Rattle.mdl_syntax.specs.Trees.{tree_of};
ghost use Rattle.mdl_syntax.specs.Heights.{height as height_of};
ghost use Rattle.expression_grammar.specs.inside.Views.{stack_of};

use crate::frame::Frame;
use crate::operand::Operand;

/// Whether an expression of this height fits within the frames.
#[tactic(auto, using(crate::proofs::StackLaws::stack_laws))]
pub fn has_room(limit: u32, frames: &[Frame], height: u64) -> bool
    ensures { result ≡ nat_le (length (stack_of frames.now) + height) limit }
{
    let depth = frames.len() as u64;
    let limit = limit as u64;
    depth <= limit && height <= limit - depth
}

/// Whether one that is higher than this operand by one does.
pub fn has_room_around(limit: u32, frames: &[Frame], operand: &Operand) -> bool
    ensures { result ≡ nat_le (length (stack_of frames.now) + suc (height_of (tree_of operand.now))) limit }
{
    has_room(limit, frames, operand.height().saturating_add(1))
}
