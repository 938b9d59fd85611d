ghost use Rattle.std.specs.Prelude.{◌≡◌};
ghost use Rattle.expression_grammar.specs.declared.fault.ParseFault.TheVariants as fault;
ghost use Rattle.module_grammar.specs.inside.ModuleMachine.{module_left_out};
ghost use Rattle.mdl_grammar.specs.inside.Runs.{ModuleFaultOf};

use case_table::Text;
use expression_grammar::ParseFault;
use std::alloc::Global;

/// Bad syntax at this token.
pub fn bad_at(declaration: u32, at: u32) -> ParseFault
    ensures { result ≡ fault.BadSyntax declaration at }
{
    ParseFault::BadSyntax { declaration, at }
}

/// A word or a form that is left out at this token.
pub fn left_out_at(alloc: Global, at: u32, word: &str) -> ParseFault
    ensures { ModuleFaultOf result (module_left_out at word.now) }
{
    match Text::copy(alloc, word) {
        Ok(word) => ParseFault::LeftOut { at, word },
        Err(_) => ParseFault::OutOfMemory,
    }
}
