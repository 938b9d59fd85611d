ghost use Rattle.std.specs.Prelude.{◌≡◌, ◌≤◌, IfOk, IfErr};
ghost use Rattle.mdl_syntax.specs.Trees.{Tree, tree_of};
ghost use Rattle.mdl_syntax.specs.Written.{write};
ghost use Rattle.mdl_syntax.specs.Heights.{most_height};
ghost use Rattle.mdl_syntax.specs.Levelled.{Accepted};
ghost use Rattle.expression_grammar.specs.Readings.{IsTree, kinds};
ghost use Rattle.expression_grammar.specs.Answers.{HasFault, IsReadAs};
ghost use Rattle.expression_grammar.specs.inside.Machine.{Run, run};
ghost use Rattle.expression_grammar.specs.inside.Runs.{Parsed, FaultOf, stopped};

use crate::fault::ParseFault;
use crate::frame::Frame;
use crate::mode::{Mode, Stop};
use crate::step::{finish, step};
use mdl_lexer::Token;
use mdl_syntax::Expr;
use std::alloc::Global;

/// The greatest height of an expression.
const MOST_HEIGHT: u32 = 400;

/// The expression that the tokens write, or the fault that stands first. `docs/LANGUAGE.md` has the grammar,
/// with the sections of the MDL specification.
pub fn parse_expr(alloc: Global, tokens: &[Token]) -> Result<Expr, ParseFault>
    ensures tree { IfOk result (λ tree. IsTree most_height tokens.now (tree_of tree)) }
    ensures fault { IfErr result (λ fault. HasFault most_height tokens.now fault) }
    ensures written { (tree : Tree) → Accepted most_height tree → write tree ≡ kinds tokens.now
        → IsReadAs tokens.now tree result }
{
    parse_within(alloc, MOST_HEIGHT, tokens)
}

/// The expression of at most this height that the tokens write, or the fault that stands first.
fn parse_within(alloc: Global, limit: u32, tokens: &[Token]) -> Result<Expr, ParseFault>
    requires { 1 ≤ limit }
    ensures tree { IfOk result (λ tree. IsTree limit tokens.now (tree_of tree)) }
    ensures fault { IfErr result (λ fault. HasFault limit tokens.now fault) }
    ensures written { (tree : Tree) → Accepted limit tree → write tree ≡ kinds tokens.now
        → IsReadAs tokens.now tree result }
{
    read_tokens(alloc, limit, tokens)
}

fn read_tokens(alloc: Global, limit: u32, tokens: &[Token]) -> Result<Expr, ParseFault>
    ensures { Parsed result (run limit tokens.now) }
{
    if tokens.len() > u32::MAX as usize {
        return Err(ParseFault::OutOfMemory);
    }
    let mut frames = Vec::new(alloc);
    let mut mode = Mode::Wanted;
    let mut at = 0;
    while at < tokens.len() {
        mode = match step(alloc, limit, mode, &mut frames, &tokens[at]) {
            Ok(mode) => mode,
            Err(stop) => return Err(fault_at(stop, at as u32)),
        };
        at += 1;
    }
    match finish(alloc, limit, mode, &mut frames) {
        Ok(tree) => Ok(tree),
        Err(stop) => Err(fault_at(stop, at as u32)),
    }
}

/// The fault of a stop at this token.
fn fault_at(stop: Stop, at: u32) -> ParseFault
    ensures { (made : Run) → stopped at stop made → FaultOf result made }
{
    match stop {
        Stop::Bad => ParseFault::BadSyntax { declaration: 0, at },
        Stop::Deep => ParseFault::TooDeep { at },
        Stop::LeftOut(word) => ParseFault::LeftOut { at, word },
        Stop::OutOfMemory => ParseFault::OutOfMemory,
    }
}
