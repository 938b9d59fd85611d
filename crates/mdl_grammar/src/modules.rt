ghost use Rattle.std.specs.Prelude.{◌≡◌, ◌≤◌, ◌<◌, ℕ, suc, IfOk, IfErr, true, length, codes, Err, List, ◌+◌};
ghost use Rattle.mdl_lexer.specs.declared.token.Token.{Token};
ghost use Rattle.mdl_syntax.specs.Modules.{ModuleTree, module_of};
ghost use Rattle.mdl_syntax.specs.WrittenModules.{write_module};
ghost use Rattle.mdl_syntax.specs.AcceptedModules.{IsAccepted};
ghost use Rattle.mdl_syntax.specs.Heights.{most_height};
ghost use Rattle.expression_grammar.specs.Readings.{kinds};
ghost use Rattle.module_grammar.specs.ModuleReadings.{IsModuleTree};
ghost use Rattle.mdl_grammar.specs.Answers.{HasModuleFault, IsModuleReadAs};
ghost use Rattle.mdl_grammar.specs.declared.module_state.Begun.{Begun as HeldBegun};
ghost use Rattle.module_grammar.specs.inside.ModuleMachine.{run_module, module_taken, permitted};
ghost use Rattle.module_grammar.specs.inside.ModuleStates.{on, within};
ghost use Rattle.module_grammar.specs.inside.ModuleMachine.{judged as machine_judged, verdict_in as machine_verdict};
ghost use Rattle.module_grammar.specs.inside.ModuleMachine.{waiting_place as machine_waiting, over_at as machine_over};
ghost use Rattle.module_grammar.specs.inside.ModuleStates.{Outcome};
ghost use Rattle.module_grammar.specs.inside.ModuleMachine.{module_read};
ghost use Rattle.module_grammar.specs.inside.ModuleStates.{Begun as MachineBegun, item_wanted};
ghost use Rattle.module_grammar.specs.inside.ModuleMachine.{module_left_out};
ghost use Rattle.module_grammar.specs.inside.ModuleMachine.{module_end as machine_end, whole_after as machine_whole};
ghost use Rattle.mdl_grammar.specs.inside.ModuleViews.{ModuleCame, begun_of, position_of};
ghost use Rattle.mdl_grammar.specs.inside.Runs.{ModuleParsed, ModuleFaultOf, TakenCame, Placed, run_after};
ghost use Rattle.mdl_grammar.specs.inside.Runs.{is_item as machine_is_item};

use crate::faults::{bad_at, left_out_at};
use crate::module_state::{Begun, ModuleStop, Position, Site};
use crate::positions::token_step;
use crate::verdicts::{Verdict, verdict_in};
use crate::version::version_line;
use case_table::Seq;
use expression_grammar::ParseFault;
use mdl_lexer::Token;
use mdl_syntax::{Module, Span};
use std::alloc::Global;

/// The greatest height of an expression.
const MOST_HEIGHT: u32 = 400;

/// The module that the tokens write, or the fault that stands first. `docs/LANGUAGE.md` has the grammar, with the
/// sections of the MDL specification.
pub fn parse_module(alloc: Global, tokens: &[Token]) -> Result<Module, ParseFault>
    ensures tree { IfOk result (λ tree. IsModuleTree most_height tokens.now (module_of tree)) }
    ensures fault { IfErr result (λ fault. HasModuleFault most_height tokens.now fault) }
    ensures written { (tree : ModuleTree) → IsAccepted most_height tree → write_module tree ≡ kinds tokens.now
        → IsModuleReadAs tokens.now tree result }
{
    parse_module_within(alloc, MOST_HEIGHT, tokens)
}

/// The module whose expressions are of at most this height that the tokens write, or the fault that stands first.
fn parse_module_within(alloc: Global, limit: u32, tokens: &[Token]) -> Result<Module, ParseFault>
    requires { (1 ≤ limit) × (limit < 4294967295) }
    ensures tree { IfOk result (λ tree. IsModuleTree limit tokens.now (module_of tree)) }
    ensures fault { IfErr result (λ fault. HasModuleFault limit tokens.now fault) }
    ensures written { (tree : ModuleTree) → IsAccepted limit tree → write_module tree ≡ kinds tokens.now
        → IsModuleReadAs tokens.now tree result }
{
    read_module(alloc, limit, tokens)
}

fn read_module(alloc: Global, limit: u32, tokens: &[Token]) -> Result<Module, ParseFault>
    requires { limit < 4294967295 }
    ensures { ModuleParsed result (run_module limit tokens.now) }
{
    if tokens.len() > u32::MAX as usize {
        return Err(ParseFault::OutOfMemory);
    }
    let mut begun = version_line(alloc, tokens)?;
    let mut position = Position::ItemWanted { early: true };
    let (_, mut rest) = tokens.split_at(3);
    let mut whole = 3;
    let mut at = 3;
    while let Some((token, behind)) = rest.split_first() {
        position = taken(alloc, limit, whole, at, &mut begun, position, token, behind)?;
        rest = behind;
        at += 1;
        whole = whole_behind(whole, at, &position);
    }
    module_end(whole, at, begun, position)
}

/// How many tokens whole declarations take, where so many are read.
fn whole_behind(whole: u32, at: u32, position: &Position) -> u32
    ensures { (begun : MachineBegun) → result ≡ machine_whole whole at (within begun (position_of position.now)) }
{
    match position {
        Position::ItemWanted { .. } => at,
        _ => whole,
    }
}

/// What the end of the tokens makes of what was read.
fn module_end(whole: u32, at: u32, begun: Begun, position: Position) -> Result<Module, ParseFault>
    ensures { ModuleParsed result (machine_end whole at (within (begun_of begun) (position_of position))) }
{
    if is_item(&position) {
        Ok(module_from(begun))
    } else {
        Err(bad_at(whole, at))
    }
}

/// Whether a whole declaration was read last, or another item.
fn is_item(position: &Position) -> bool
    ensures { result ≡ machine_is_item (position_of position.now) }
{
    match position {
        Position::ItemWanted { .. } => true,
        _ => false,
    }
}

fn module_from(begun: Begun) -> Module
    ensures { (whole at : ℕ) → machine_end whole at (within (begun_of begun) (item_wanted true))
        ≡ module_read (module_of result) }
{
    let Begun {
        at,
        end,
        version,
        imports,
        annotations,
        declarations,
    } = begun;
    Module {
        version,
        imports: Seq::of(imports),
        annos: annotations,
        decls: Seq::of(declarations),
        span: Span { at, end },
    }
}

/// What comes of the token of this number, before `rest` and behind so many tokens of whole declarations.
fn taken(
    alloc: Global,
    limit: u32,
    whole: u32,
    number: u32,
    begun: &mut Begun,
    position: Position,
    token: &Token,
    rest: &[Token],
) -> Result<Position, ParseFault>
    requires { (limit < 4294967295) × (number + length rest.now < 4294967295) }
    ensures { TakenCame limit whole number rest.now result begun.new
        (module_taken true limit number (within (begun_of begun.old) (position_of position)) token.now) }
{
    match token_step(alloc, limit, number, begun, position, token) {
        Ok(position) => judged(alloc, limit, number, begun, position, rest),
        Err(stop) => Err(fault_of(stop, whole, number)),
    }
}

/// The fault of a stop at this token.
fn fault_of(stop: ModuleStop, whole: u32, at: u32) -> ParseFault
    ensures { (begun : HeldBegun) (made : Outcome) (limit : ℕ) (rest : List Token)
        → ModuleCame (Err stop) begun made
        → ModuleFaultOf result (run_after limit whole at (permitted true made) rest) }
{
    match stop {
        ModuleStop::Bad => bad_at(whole, at),
        ModuleStop::Deep => ParseFault::TooDeep { at },
        ModuleStop::LeftOut(word) => ParseFault::LeftOut { at, word },
        ModuleStop::StatementBody => ParseFault::StatementBody { at },
        ModuleStop::OutOfMemory => ParseFault::OutOfMemory,
    }
}

/// What sizes that are deferred make of the state behind the token of this number.
fn judged(
    alloc: Global,
    limit: u32,
    number: u32,
    begun: &mut Begun,
    position: Position,
    rest: &[Token],
) -> Result<Position, ParseFault>
    requires { (limit < 4294967295) × (number + length rest.now < 4294967295) }
    ensures { (whole : ℕ) → TakenCame limit whole number rest.now result begun.new
        (machine_judged (within (begun_of begun.old) (position_of position)) (machine_verdict (position_of position))) }
{
    match verdict_in(&position) {
        Verdict::Passes => Ok(position),
        Verdict::RefusedHere => Err(size_left_out(alloc, position, number)),
        Verdict::RefusedBefore(at) => Err(size_left_out(alloc, position, at)),
        Verdict::Undecided => {
            let at = waiting_place(alloc, limit, number, begun, position, rest)?;
            Err(left_out_at(alloc, at, "deferred-size"))
        }
    }
}

/// The size at this token is left out, which ends this position.
fn size_left_out(alloc: Global, position: Position, at: u32) -> ParseFault
    ensures { ModuleFaultOf result (module_left_out at (codes "deferred-size")) }
{
    drop(position);
    left_out_at(alloc, at, "deferred-size")
}

/// The place of a size that is left out, where one at the token of this number follows another in one head: the first
/// where the body of a function begins behind them, and else this one.
fn waiting_place(
    alloc: Global,
    limit: u32,
    number: u32,
    begun: &mut Begun,
    position: Position,
    tokens: &[Token],
) -> Result<u32, ParseFault>
    requires { (limit < 4294967295) × (number + length tokens.now < 4294967295) }
    ensures { Placed result (machine_waiting limit number (suc number)
        (on (within (begun_of begun.old) (position_of position))) tokens.now) }
{
    let mut position = position;
    let mut rest = tokens;
    let mut at = number + 1;
    while let Some((token, behind)) = rest.split_first() {
        if let Some(place) = over_at(number, &position) {
            return Ok(place);
        }
        position = match token_step(alloc, limit, at, begun, position, token) {
            Ok(position) => position,
            Err(stop) => return waiting_stopped(&stop, number),
        };
        rest = behind;
        at += 1;
    }
    Ok(over_at(number, &position).unwrap_or(number))
}

/// The place where a fault stands behind a size that waits, which is the one left out.
fn waiting_stopped(stop: &ModuleStop, number: u32) -> Result<u32, ParseFault>
    ensures { (begun : HeldBegun) (made : Outcome) (limit at : ℕ) (tokens : List Token)
        → ModuleCame (Err stop.now) begun made → Placed result (machine_waiting limit number at made tokens) }
{
    match stop {
        ModuleStop::OutOfMemory => Err(ParseFault::OutOfMemory),
        _ => Ok(number),
    }
}

/// Where the head is over, the place of the size in it that is left out.
fn over_at(waiting: u32, position: &Position) -> Option<u32>
    ensures { (begun : MachineBegun) → result ≡ machine_over waiting (within begun (position_of position.now)) }
{
    match position {
        Position::Expression { site, .. } => match &**site {
            Site::FunctionBody { fronted, .. } => match fronted.deferred {
                Some(at) => Some(at),
                None => Some(waiting),
            },
            _ => None,
        },
        Position::ItemWanted { .. } => Some(waiting),
        _ => None,
    }
}
