use crate::entity::EntityId;
use case_table::Seq;

/// What a name finds.
#[derive(Debug, Drop)]
pub enum Looked {
    /// One entity, or several that are all functions or all annotations, in order of module, declaration and part.
    Found(Seq<EntityId>),
    Unknown,
    /// Something of the name is there, but not exported.
    NotExported,
    /// Entities that don't go together: the first two of all that are found.
    Clash { a: EntityId, b: EntityId },
}
