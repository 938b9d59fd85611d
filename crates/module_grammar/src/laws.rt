ghost use Rattle.std.specs.Prelude.{◌≡◌, ◌≤◌, ℕ, List, Some, take};
ghost use Rattle.mdl_lexer.specs.declared.token.Token.{Token};
ghost use Rattle.mdl_syntax.specs.Modules.{ModuleTree};
ghost use Rattle.mdl_syntax.specs.WrittenModules.{write_module};
ghost use Rattle.mdl_syntax.specs.PlacedModules.{placed_module, IsSameModule};
ghost use Rattle.mdl_syntax.specs.LevelledModules.{IsModule};
ghost use Rattle.mdl_syntax.specs.AcceptedModules.{IsAccepted};
ghost use Rattle.module_grammar.specs.ModuleFaults.{ModuleOpens};
ghost use Rattle.module_grammar.specs.ModuleReadings.{ModuleReading, HasModuleReading, OneModuleReading, a_module};
ghost use Rattle.module_grammar.specs.ModuleReadings.{module_fault_place};
ghost use Rattle.expression_grammar.specs.Readings.{kinds};

/// The law that tokens have one reading: as one module with its places, or as one fault at its place.
pub fn one_module_reading()
    ensures { (most : ℕ) → 1 ≤ most → (tokens : List Token) → OneModuleReading most tokens }
{}

/// The law that no two modules write the same words, places aside. Sizes that are deferred may stand in them.
pub fn one_module()
    ensures { (one other : ModuleTree) → IsModule one → IsModule other → write_module one ≡ write_module other →
        IsSameModule one other }
{}

/// The law that the tokens before a fault open: a module whose expressions are within the limit begins with them.
pub fn before_a_module_fault()
    ensures { (most : ℕ) → 1 ≤ most → (tokens : List Token) (reading : ModuleReading) (at : ℕ) →
        HasModuleReading most tokens reading → module_fault_place reading ≡ Some at →
        ModuleOpens (take at (kinds tokens)) most }
{}

/// The law that what an accepted module writes is read as that module, with the places of the tokens.
pub fn what_a_module_writes_is_read()
    ensures { (most : ℕ) → 1 ≤ most → (tree : ModuleTree) (tokens : List Token) → IsAccepted most tree →
        write_module tree ≡ kinds tokens → HasModuleReading most tokens (a_module (placed_module tree tokens)) }
{}
