ghost use Rattle.std.specs.Prelude.{◌≡◌, None, Err};
ghost use Rattle.mdl_grammar.specs.declared.module_state.Begun as begun;
ghost use Rattle.mdl_grammar.specs.declared.module_state.ModuleStop.TheVariants as stop;
ghost use Rattle.module_grammar.specs.inside.ModuleStates.{leaves_out};
ghost use Rattle.mdl_grammar.specs.inside.ModuleViews.{ModuleCame};

use case_table::{Seq, Text};
use expression_grammar::frame::Frame;
use expression_grammar::mode::Mode;
use mdl_syntax::{
    Anno, Decl, EnumItem, Expr, Freq, Ident, Import, Lead, ModuleRef, Param, Qualified, Span,
    TypeTree, VersionLit,
};
use std::alloc::{AllocError, AllocFailed, Global};

/// What has been read of a module.
#[derive(Debug, Drop)]
pub struct Begun {
    pub at: u32,
    pub end: u32,
    pub version: VersionLit,
    pub imports: Vec<Import>,
    pub annotations: Option<Seq<Anno>>,
    pub declarations: Vec<Decl>,
}

/// A name of a module so far, with the place where it begins.
#[derive(Debug, Drop)]
pub enum Naming {
    Unnamed,
    /// `.`
    OneDot {
        at: u32,
    },
    /// So many `..::`, and `..`
    TwoDots {
        steps: u32,
        at: u32,
    },
    /// So many `..::`
    UpSteps {
        steps: u32,
        at: u32,
    },
    /// So many `..::`, and `.`
    OneDotBehind {
        steps: u32,
        at: u32,
    },
    /// `::` or `.::`
    Led {
        lead: Lead,
        at: u32,
    },
    /// Parts, which end here.
    Parted {
        lead: Lead,
        at: u32,
        parts: Vec<Ident>,
        end: u32,
    },
    /// Parts, which end here, and `::`
    OpenEnded {
        lead: Lead,
        at: u32,
        parts: Vec<Ident>,
        end: u32,
    },
}

/// A declaration so far: where it begins, whether it is exported, and its name.
#[derive(Debug, Drop)]
pub struct Named {
    pub at: u32,
    pub exported: bool,
    pub name: Ident,
}

/// The front of a function, a material or a variant, with the first token by which the size of a parameter is deferred.
#[derive(Debug, Drop)]
pub struct Fronted {
    pub named: Named,
    pub ty: TypeTree,
    pub deferred: Option<u32>,
}

/// The front of a parameter or a field.
#[derive(Debug, Drop)]
pub struct Front {
    pub at: u32,
    pub frequency: Option<Freq>,
    pub ty: TypeTree,
    pub name: Ident,
}

/// What parameters belong to.
#[derive(Debug, Drop)]
pub enum Owner {
    Function(Box<Fronted>),
    Annotation(Named),
}

#[derive(Debug, Drop)]
pub struct StructSoFar {
    pub named: Named,
    pub annotations: Option<Seq<Anno>>,
    pub fields: Vec<Param>,
}

#[derive(Debug, Drop)]
pub struct EnumSoFar {
    pub named: Named,
    pub annotations: Option<Seq<Anno>>,
    pub values: Vec<EnumItem>,
}

/// What annotations belong to.
#[derive(Debug, Drop)]
pub enum Holder {
    Module,
    Parameter {
        owner: Owner,
        parameters: Vec<Param>,
        front: Box<Front>,
        default: Option<Expr>,
    },
    Function {
        fronted: Box<Fronted>,
        parameters: Vec<Param>,
        frequency: Option<Freq>,
    },
    Annotation {
        named: Named,
        parameters: Vec<Param>,
    },
    Variant(Box<Fronted>),
    Struct(Named),
    Field {
        held: StructSoFar,
        front: Box<Front>,
        default: Option<Expr>,
    },
    Enum(Named),
    EnumValue {
        held: EnumSoFar,
        name: Ident,
        number: Option<u32>,
    },
}

/// Where an expression stands.
#[derive(Debug, Drop)]
pub enum Site {
    FunctionBody {
        fronted: Box<Fronted>,
        parameters: Vec<Param>,
        frequency: Option<Freq>,
        annotations: Option<Seq<Anno>>,
    },
    Default {
        owner: Owner,
        parameters: Vec<Param>,
        front: Box<Front>,
    },
    FieldDefault {
        held: StructSoFar,
        front: Box<Front>,
    },
    Annotation {
        holder: Box<Holder>,
        annotations: Vec<Anno>,
    },
    Base {
        fronted: Box<Fronted>,
        annotations: Option<Seq<Anno>>,
    },
}

/// Where a type and a name stand.
#[derive(Debug, Drop)]
pub enum Fronting {
    /// A declaration begins here, be it exported.
    Declaration {
        at: u32,
        exported: bool,
    },
    Parameter {
        owner: Owner,
        parameters: Vec<Param>,
    },
    Field(StructSoFar),
}

/// The word that a declaration begins with.
#[derive(Clone, Copy, Debug)]
pub enum Kin {
    Struct,
    Enum,
    Annotation,
}

/// What was read last of an import.
#[derive(Debug, Drop)]
pub enum ImportPosition {
    Importing {
        at: u32,
        items: Vec<Qualified>,
        naming: Naming,
    },
    Imported {
        at: u32,
        items: Vec<Qualified>,
    },
    Using {
        at: u32,
        naming: Naming,
    },
    UsedWanted {
        at: u32,
        module: ModuleRef,
    },
    UsedRead {
        at: u32,
        module: ModuleRef,
        names: Vec<Ident>,
    },
    UsedNext {
        at: u32,
        module: ModuleRef,
        names: Vec<Ident>,
    },
    UsedAll {
        at: u32,
        module: ModuleRef,
    },
}

/// What was read last of annotations.
#[derive(Debug, Drop)]
pub enum AnnotationPosition {
    OwnWanted,
    AnnotationsBegun(Box<Holder>),
    FirstAnnotation(Box<Holder>),
    AnnotationRead {
        holder: Box<Holder>,
        annotations: Vec<Anno>,
    },
    AnnotationsClosing {
        holder: Box<Holder>,
        annotations: Vec<Anno>,
    },
    Annotated {
        holder: Box<Holder>,
        annotations: Vec<Anno>,
        end: u32,
    },
}

/// What was read last of a declaration with parameters, or of the front of any.
#[derive(Debug, Drop)]
pub enum FunctionPosition {
    ExportedRead {
        at: u32,
    },
    KinNamed {
        at: u32,
        exported: bool,
        kin: Kin,
    },
    AnnotationNamed(Named),
    Declared(Box<Fronted>),
    ParametersBegun(Owner),
    StarRead(Box<Fronted>),
    VariantRead(Box<Fronted>),
    BaseRead {
        fronted: Box<Fronted>,
        annotations: Option<Seq<Anno>>,
        base: Anno,
    },
    ParameterRead {
        owner: Owner,
        parameters: Vec<Param>,
        front: Box<Front>,
    },
    ParameterNext {
        owner: Owner,
        parameters: Vec<Param>,
    },
    FunctionRead {
        fronted: Box<Fronted>,
        parameters: Vec<Param>,
        frequency: Option<Freq>,
    },
    AnnotationDeclared {
        named: Named,
        parameters: Vec<Param>,
    },
}

/// What was read last of a struct or an enum.
#[derive(Debug, Drop)]
pub enum TypePosition {
    StructNamed(Named),
    FieldsRead(StructSoFar),
    FieldRead {
        held: StructSoFar,
        front: Box<Front>,
    },
    EnumNamed(Named),
    ValueWanted(EnumSoFar),
    ValueRead {
        held: EnumSoFar,
        name: Ident,
    },
    NumberWanted {
        held: EnumSoFar,
        name: Ident,
    },
    NumberRead {
        held: EnumSoFar,
        name: Ident,
        value: u32,
        end: u32,
    },
    StructClosed(StructSoFar),
    EnumClosed(EnumSoFar),
}

/// What was read last. Its greater parts lie in boxes, and it is an enum of enums, since a position moves with each
/// token and a function that takes all of them apart would make room for all their parts.
#[derive(Debug, Drop)]
pub enum Position {
    ItemWanted {
        early: bool,
    },
    Import(ImportPosition),
    Annotation(AnnotationPosition),
    Function(FunctionPosition),
    Type(TypePosition),
    Fronting {
        of: Box<Fronting>,
        mode: Mode,
    },
    Expression {
        site: Box<Site>,
        mode: Mode,
        frames: Vec<Frame>,
    },
    Opened {
        site: Box<Site>,
        mode: Mode,
        frames: Vec<Frame>,
        bracket: Span,
    },
}

/// Why the reader of a module can't take a token.
#[derive(Debug, Drop)]
pub enum ModuleStop {
    /// No module goes on with it.
    Bad,
    /// One does, but an expression in it is too high.
    Deep,
    /// The profile leaves out the form that this names, which begins here.
    LeftOut(Text),
    /// A function's body of statements.
    StatementBody,
    OutOfMemory,
}

impl From<AllocError> for ModuleStop {
    ghost use Rattle.std.specs.Prelude.{◌≡◌};
    ghost use Rattle.mdl_grammar.specs.declared.module_state.ModuleStop.TheVariants as stop;

    ghost from_gives = { λ _ made. made ≡ stop.OutOfMemory };

    fn from(_error: AllocError) -> ModuleStop {
        ModuleStop::OutOfMemory
    }
}

impl<T: Drop> From<AllocFailed<T>> for ModuleStop {
    ghost use Rattle.std.specs.Prelude.{◌≡◌};
    ghost use Rattle.mdl_grammar.specs.declared.module_state.ModuleStop.TheVariants as stop;

    ghost from_gives = { λ _ made. made ≡ stop.OutOfMemory };

    fn from(_error: AllocFailed<T>) -> ModuleStop {
        ModuleStop::OutOfMemory
    }
}

/// A form that the profile leaves out.
pub fn left_out_form(alloc: Global, word: &str) -> ModuleStop
    ensures { (begun : begun.Begun) → ModuleCame (Err result) begun (leaves_out None word.now) }
{
    match Text::copy(alloc, word) {
        Ok(word) => ModuleStop::LeftOut(word),
        Err(_) => ModuleStop::OutOfMemory,
    }
}

/// No module has such a name.
pub fn refused_naming(_naming: Naming) -> ModuleStop
    ensures { result ≡ stop.Bad }
{
    ModuleStop::Bad
}
