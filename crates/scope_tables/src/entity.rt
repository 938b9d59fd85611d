use case_table::Text;

/// What a declaration, or a value of an enum, is known by.
#[derive(Clone, Copy, Debug, PartialEq, Eq)]
pub struct EntityId {
    /// The index of the module. What the prelude has stands behind the modules of the set.
    pub module: u32,
    /// The index of the declaration in its module.
    pub decl: u32,
    /// 0 for the declaration, and k + 1 for the value k of an enum.
    pub part: u32,
}

#[derive(Clone, Copy, Debug, PartialEq, Eq)]
pub enum Sort {
    /// A material, or a variant of one.
    Material,
    /// A function with a body, or a variant of one.
    Function,
    /// A function without a body.
    Intrinsic,
    Struct,
    Enum,
    EnumValue,
    Annotation,
}

/// What a name can find.
#[derive(Debug, Drop)]
pub struct Entity {
    pub id: EntityId,
    pub name: Text,
    /// The name by which an import brings it too: that of its enum, or its own.
    pub group: Text,
    pub sort: Sort,
    pub exported: bool,
}
