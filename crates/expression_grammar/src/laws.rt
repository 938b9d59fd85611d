ghost use Rattle.std.specs.Prelude.{◌≡◌, ◌≤◌, ℕ, List, Some, take};
ghost use Rattle.mdl_lexer.specs.declared.token.Token.{Token};
ghost use Rattle.mdl_syntax.specs.Trees.{Tree};
ghost use Rattle.mdl_syntax.specs.Written.{write};
ghost use Rattle.mdl_syntax.specs.Placed.{placed, IsSameButPlaces};
ghost use Rattle.mdl_syntax.specs.Levelled.{Levelled, Accepted};
ghost use Rattle.expression_grammar.specs.Opens.{Opens};
ghost use Rattle.expression_grammar.specs.Readings.{Reading, HasReading, OneReading, a_tree, fault_place, kinds};

/// The law that tokens have one reading: as one expression with its places, or as one fault at its place.
pub fn one_reading()
    ensures { (most : ℕ) → 1 ≤ most → (tokens : List Token) → OneReading most tokens }
{}

/// The law that no two expressions write the same words, places aside. Sizes that are deferred may stand in them.
pub fn one_expression()
    ensures { (one other : Tree) → Levelled one → Levelled other → write one ≡ write other →
        IsSameButPlaces one other }
{}

/// The law that the tokens before a fault open: an expression that is no higher than the limit begins with them.
pub fn before_a_fault()
    ensures { (most : ℕ) → 1 ≤ most → (tokens : List Token) (reading : Reading) (at : ℕ) →
        HasReading most tokens reading → fault_place reading ≡ Some at → Opens (take at (kinds tokens)) most }
{}

/// The law that what an accepted expression writes is read as that expression, with the places of the tokens.
pub fn what_is_written_is_read()
    ensures { (most : ℕ) → 1 ≤ most → (tree : Tree) (tokens : List Token) → Accepted most tree →
        write tree ≡ kinds tokens → HasReading most tokens (a_tree (placed tree tokens)) }
{}
