ghost use Rattle.std.specs.Prelude.{◌≡◌, IfOk};
ghost use Rattle.std.specs.List.{AllZip};
ghost use Rattle.std.specs.Cmp.Lexicographic.{pointwise, slice_cmp, slice_partial_cmp};
ghost use Rattle.std.specs.Cmp.Lexicographic.{lists_equiv, lists_agrees, lists_total};
ghost use Rattle.std.specs.Cmp.Lexicographic.{lists_ties, lists_po, lists_per};
ghost use Rattle.std.specs.Hash as fed;
ghost use Rattle.std.specs.Hash.{items_Alike};

use std::alloc::{AllocError, Global};
use std::cmp::Ordering;
use std::hash::{Hash, Hasher};
use std::marker::Model;

/// A list that contracts see as the list of its elements. A type may lead back to itself through
/// it.
#[derive(Debug, Drop)]
pub struct Seq<T> {
    list: Vec<T>,
}

impl<T> Model for Seq<T> {
    ghost use Rattle.std.specs.Prelude.{List};
    ghost use Rattle.std.specs.Coded.{coded_list};

    ghost Value = { List T };

    ghost coded = { coded_list T.code };

    ghost view = { λ s. s.list.items };
}

impl<T> Seq<T> {
    /// Wraps a list. Takes no memory.
    pub fn of(list: Vec<T>) -> Seq<T>
        ensures { result ≡ list.items }
    {
        Seq { list }
    }

    /// The elements in order. Takes no memory.
    pub fn list(&self) -> &[T]
        ensures { result.now ≡ self.now }
    {
        self.list.as_slice()
    }
}

impl<T: Copy> Seq<T> {
    /// A copy of borrowed elements.
    pub fn copy(alloc: Global, list: &[T]) -> Result<Seq<T>, AllocError>
        ensures { IfOk result (λ copied. copied ≡ list.now) }
    {
        let list = Vec::from_slice(alloc, list)?;
        Ok(Seq { list })
    }
}

impl<T: Clone + Drop> Clone for Seq<T> {
    ghost is_clone = { AllZip T.is_clone };

    fn clone(&self) -> Result<Seq<T>, AllocError> {
        let list = self.list.clone()?;
        Ok(Seq { list })
    }
}

impl<T: PartialEq> PartialEq for Seq<T> {
    ghost eq = { pointwise T.eq };

    ghost laws = { lists_per T.laws };

    fn eq(&self, other: &Seq<T>) -> bool {
        self.list() == other.list()
    }
}

impl<T: Eq> Eq for Seq<T> {
    ghost laws = { lists_equiv T.Eq.laws };
}

impl<T: PartialOrd> PartialOrd for Seq<T> {
    ghost partial_cmp = { slice_partial_cmp T.partial_cmp };

    ghost laws = { lists_po T.PartialOrd.laws };

    fn partial_cmp(&self, other: &Seq<T>) -> Option<Ordering> {
        self.list().partial_cmp(&other.list())
    }
}

impl<T: Ord> Ord for Seq<T> {
    ghost cmp = { slice_cmp T.cmp };

    ghost total = { lists_total T.total };

    ghost matches_partial_cmp = { lists_agrees T.matches_partial_cmp };

    ghost matches_eq = { lists_ties T.cmp T.matches_eq };

    fn cmp(&self, other: &Seq<T>) -> Ordering {
        self.list().cmp(&other.list())
    }
}

impl<T: Hash> Hash for Seq<T> {
    ghost hash_input = { fed.slice T.hash_input };

    ghost respects_eq = { (items_Alike (record { fed = T.respects_eq })).fed };

    fn hash<H: Hasher>(&self, state: &mut H) {
        self.list().hash(state);
    }
}
