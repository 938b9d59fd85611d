ghost use Rattle.std.specs.Prelude.{◌≡◌};
ghost use Rattle.expression_grammar.specs.inside.Machine.{finish as machine_finish};
ghost use Rattle.mdl_grammar.specs.inside.Ends.{all_tight as machine_all_tight, end_kind, tight_end};
ghost use Rattle.expression_grammar.specs.inside.Views.{mode_of, stack_of};

use expression_grammar::frame::Frame;
use expression_grammar::mode::{Mode, Purpose};
use expression_grammar::reduce::is_tight;
use expression_grammar::room::has_room;

/// What the end of an expression comes to.
#[derive(Clone, Copy, Debug)]
pub enum End {
    Whole,
    /// It isn't whole.
    Bad,
    /// It is whole, but too high.
    Deep,
}

/// What `finish` would come to here.
#[tactic(auto, using(crate::proofs::EndLaws::end_laws))]
pub fn end_of(limit: u32, mode: &Mode, frames: &[Frame]) -> End
    ensures { result ≡ end_kind (machine_finish limit (mode_of mode.now) (stack_of frames.now)) }
{
    match mode {
        Mode::Complete(_) => end_of_whole(frames),
        Mode::PartRead {
            purpose: Purpose::Expression,
            ..
        } => end_of_whole(frames),
        Mode::WordRead {
            purpose: Purpose::Expression,
            ..
        } => end_of_whole(frames),
        Mode::SizedClosed { .. } => {
            if !is_all_tight(frames) {
                return End::Bad;
            }
            if has_room(limit, frames, 2) {
                End::Whole
            } else {
                End::Deep
            }
        }
        _ => End::Bad,
    }
}

fn end_of_whole(frames: &[Frame]) -> End
    ensures { result ≡ tight_end (stack_of frames.now) }
{
    if is_all_tight(frames) {
        End::Whole
    } else {
        End::Bad
    }
}

/// Whether all frames end with the operand before the end.
#[tactic(auto, using(crate::proofs::ReaderLaws::stack_laws))]
fn is_all_tight(frames: &[Frame]) -> bool
    ensures { result ≡ machine_all_tight (stack_of frames.now) }
{
    let mut rest = frames;
    while let Some((frame, below)) = rest.split_last() {
        if !is_tight(0, frame) {
            return false;
        }
        rest = below;
    }
    true
}
