//! Types and symbols, and the terms that are made of them.
#![tactic(auto)]

mod symbol;
mod ty;

pub use symbol::Symbol;
pub use ty::{Arg, Shape, Ty};

#[cfg(test)]
mod tests {
    use crate::{Arg, Shape, Symbol, Ty};
    use case_table::{Seq, Text};
    use std::alloc::{AllocError, Global};
    use std::test::Fail;

    #[derive(Drop)]
    struct Tree {
        symbol: Symbol,
        kids: Seq<Tree>,
    }

    fn stands_in(tree: &Tree, wanted: &Symbol) -> bool {
        for kid in tree.kids.list() {
            if stands_in(kid, wanted) {
                return true;
            }
        }
        tree.symbol.is_same(wanted)
    }

    fn color(alloc: Global) -> Result<Ty, AllocError> {
        let name = Text::copy(alloc, "color")?;
        Ok(Ty {
            name,
            shape: Shape::Sized(2),
        })
    }

    fn one_of_each(alloc: Global) -> Result<Vec<Symbol>, AllocError> {
        let mut symbols = Vec::new(alloc);
        symbols.push(Symbol::Bool(true))?;
        symbols.push(Symbol::Int(1))?;
        let text = Text::copy(alloc, "1.0")?;
        symbols.push(Symbol::Real {
            text,
            double: false,
        })?;
        let text = Text::copy(alloc, "1.0")?;
        symbols.push(Symbol::Real { text, double: true })?;
        let text = Text::copy(alloc, "1.0")?;
        symbols.push(Symbol::Str(text))?;
        let ty = Text::copy(alloc, "::state::mode")?;
        let value = Text::copy(alloc, "mode_add")?;
        symbols.push(Symbol::EnumValue { ty, value })?;
        let ty = color(alloc)?;
        symbols.push(Symbol::Param {
            index: 1,
            ty,
            uniform: false,
        })?;
        let name = Text::copy(alloc, "operator+")?;
        let ty = color(alloc)?;
        let result = color(alloc)?;
        let args = Seq::of(vec![in alloc; Arg { ty, uniform: true }]?);
        symbols.push(Symbol::Op {
            name,
            args,
            result,
            varying: false,
        })?;
        Ok(symbols)
    }

    #[test]
    fn each_symbol_is_its_clone_alone(rt: HostRuntime) -> Result<(), Fail> {
        let symbols = one_of_each(rt.alloc())?;
        for (place, symbol) in symbols.iter().enumerate() {
            let cloned = symbol.clone()?;
            for (other_place, other) in symbols.iter().enumerate() {
                let same = place == other_place;
                assert!(rt; cloned.is_same(other) == same, "{place} {other_place}");
                assert!(rt; (cloned == *other) == same, "{place} {other_place}");
            }
        }
        Ok(())
    }

    #[test]
    fn trees_lead_back_through_a_list(rt: HostRuntime) -> Result<(), Fail> {
        let alloc = rt.alloc();
        let leaf = Tree {
            symbol: Symbol::Int(7),
            kids: Seq::of(Vec::new(alloc)),
        };
        let tree = Tree {
            symbol: Symbol::Bool(true),
            kids: Seq::of(vec![in alloc; leaf]?),
        };
        assert!(rt; stands_in(&tree, &Symbol::Bool(true)));
        assert!(rt; stands_in(&tree, &Symbol::Int(7)));
        assert!(rt; !stands_in(&tree, &Symbol::Int(8)));
        Ok(())
    }
}
