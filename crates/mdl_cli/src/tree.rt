ghost use Rattle.std.specs.Prelude.{◌≡◌, map};
ghost use Rattle.type_rules.specs.Terms.{apply, terms_from, symbol_of, kids_of};
ghost use Rattle.mdl_cli.specs.inside.Trees.{term_of};

use case_table::Seq;
use type_rules::Symbol;

/// A term as it was read.
#[derive(Debug, Drop)]
pub struct Tree {
    symbol: Symbol,
    kids: Seq<Tree>,
}

impl Tree {
    /// The symbol over its kids.
    pub fn new(symbol: Symbol, kids: Vec<Tree>) -> Tree
        ensures { term_of result ≡ apply symbol (terms_from (map term_of kids.items)) }
    {
        Tree {
            symbol,
            kids: Seq::of(kids),
        }
    }

    pub fn symbol(&self) -> &Symbol
        ensures { result.now ≡ symbol_of (term_of self.now) }
    {
        &self.symbol
    }

    pub fn kids(&self) -> &[Tree]
        ensures { map term_of result.now ≡ kids_of (term_of self.now) }
    {
        self.kids.list()
    }
}
