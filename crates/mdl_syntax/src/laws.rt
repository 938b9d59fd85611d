ghost use Rattle.std.specs.Prelude.{◌≡◌, List};
ghost use Rattle.mdl_lexer.specs.declared.token.Token.{Token};
ghost use Rattle.mdl_syntax.specs.Trees.{Tree};
ghost use Rattle.mdl_syntax.specs.Written.{write};
ghost use Rattle.mdl_syntax.specs.Placed.{placed, IsSameButPlaces};
ghost use Rattle.mdl_syntax.specs.Modules.{ModuleTree};
ghost use Rattle.mdl_syntax.specs.WrittenModules.{write_module};
ghost use Rattle.mdl_syntax.specs.PlacedModules.{placed_module, IsSameModule};

/// The law that places change no word.
pub fn places_change_no_word()
    ensures { (tree : Tree) (tokens : List Token) → write (placed tree tokens) ≡ write tree }
{}

/// The law that places don't look at the places before.
pub fn places_come_from_tokens()
    ensures { (tree : Tree) (tokens : List Token) → IsSameButPlaces (placed tree tokens) tree }
{}

/// The law that places change no word of a module.
pub fn module_places_change_no_word()
    ensures { (tree : ModuleTree) (tokens : List Token) →
        write_module (placed_module tree tokens) ≡ write_module tree }
{}

/// The law that places of a module don't look at the places before.
pub fn module_places_come_from_tokens()
    ensures { (tree : ModuleTree) (tokens : List Token) → IsSameModule (placed_module tree tokens) tree }
{}
