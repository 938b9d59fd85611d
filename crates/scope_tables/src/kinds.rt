ghost use Rattle.std.specs.Prelude.{◌≡◌};
ghost use Rattle.scope_tables.specs.inside.Kinds.{kinds_of, both, has_none, go_together};

use crate::entity::Sort;

/// Which sorts of entities there are among some.
#[derive(Clone, Copy)]
pub struct Kinds {
    pub functions: bool,
    pub annotations: bool,
    pub others: bool,
}

pub const NO_KINDS: Kinds = Kinds {
    functions: false,
    annotations: false,
    others: false,
};

impl Kinds {
    pub fn of(sort: Sort) -> Kinds
        ensures { result ≡ kinds_of sort }
    {
        match sort {
            Sort::Function | Sort::Intrinsic => Kinds {
                functions: true,
                annotations: false,
                others: false,
            },
            Sort::Annotation => Kinds {
                functions: false,
                annotations: true,
                others: false,
            },
            Sort::Material | Sort::Struct | Sort::Enum | Sort::EnumValue => Kinds {
                functions: false,
                annotations: false,
                others: true,
            },
        }
    }

    /// The sorts among both.
    pub fn and(self, other: Kinds) -> Kinds
        ensures { result ≡ both self other }
    {
        Kinds {
            functions: self.functions || other.functions,
            annotations: self.annotations || other.annotations,
            others: self.others || other.others,
        }
    }

    pub fn is_empty(self) -> bool
        ensures { result ≡ has_none self }
    {
        !self.functions && !self.annotations && !self.others
    }

    /// Whether all are functions, or all annotations.
    pub fn are_overloads(self) -> bool
        ensures { result ≡ go_together self }
    {
        !self.others && !(self.functions && self.annotations)
    }
}
