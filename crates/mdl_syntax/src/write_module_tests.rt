ghost use Rattle.std.specs.Prelude.{◌≡◌, IfOk};
ghost use Rattle.mdl_syntax.specs.Modules.{module_of};
ghost use Rattle.mdl_syntax.specs.AcceptedModules.{module_height};

use crate::write_module::push_module;
use crate::write_tests::{SPAN, argument, float, ident, name, told, variable};
use crate::{
    Anno, Decl, EnumItem, Expr, Freq, Ident, Import, Lead, Module, ModuleRef, Param, Qualified,
    Size, TypeTree, VersionLit, write_tokens,
};
use case_table::{Seq, Text};
use std::alloc::{AllocError, Global};
use std::process::Abort;
use std::test::Fail;

fn bare(alloc: Global, double: bool) -> Result<Module, AllocError>
    ensures { IfOk result (λ tree. module_height (module_of tree) ≡ 0) }
{
    let text = Text::copy(alloc, "1.6")?;
    let version = VersionLit {
        text,
        double,
        span: SPAN,
    };
    Ok(Module {
        version,
        imports: Seq::of(Vec::new(alloc)),
        annos: None,
        decls: Seq::of(Vec::new(alloc)),
        span: SPAN,
    })
}

fn with_imports(alloc: Global, imports: Vec<Import>) -> Result<Module, AllocError> {
    let mut tree = bare(alloc, false)?;
    tree.imports = Seq::of(imports);
    Ok(tree)
}

fn with_one(alloc: Global, decl: Decl) -> Result<Module, AllocError> {
    let mut tree = bare(alloc, false)?;
    let decls = vec![in alloc; decl]?;
    tree.decls = Seq::of(decls);
    Ok(tree)
}

fn module_name(alloc: Global, lead: Lead, text: &str) -> Result<ModuleRef, AllocError> {
    let part = ident(alloc, text)?;
    let parts = vec![in alloc; part]?;
    Ok(ModuleRef {
        lead,
        parts: Seq::of(parts),
        span: SPAN,
    })
}

fn item(alloc: Global, lead: Lead, name: Option<Ident>) -> Result<Qualified, AllocError> {
    let module = module_name(alloc, lead, "a")?;
    Ok(Qualified {
        module,
        name,
        span: SPAN,
    })
}

// `import a::b, ::a::*, .::a::b, ..::..::a::*;`
fn imports(alloc: Global) -> Result<Module, AllocError> {
    let (one, other) = (ident(alloc, "b")?, ident(alloc, "b")?);
    let items = vec![in alloc;
        item(alloc, Lead::Bare, Some(one))?,
        item(alloc, Lead::Absolute, None)?,
        item(alloc, Lead::Here, Some(other))?,
        item(alloc, Lead::Up(2), None)?,
    ]?;
    let import = Import::Import {
        items: Seq::of(items),
        span: SPAN,
    };
    let imports = vec![in alloc; import]?;
    with_imports(alloc, imports)
}

// `using a import b, c;` and `using ::d import *;`
fn usings(alloc: Global) -> Result<Module, AllocError> {
    let names = vec![in alloc; ident(alloc, "b")?, ident(alloc, "c")?]?;
    let some = Import::Using {
        module: module_name(alloc, Lead::Bare, "a")?,
        names: Some(Seq::of(names)),
        span: SPAN,
    };
    let all = Import::Using {
        module: module_name(alloc, Lead::Absolute, "d")?,
        names: None,
        span: SPAN,
    };
    let imports = vec![in alloc; some, all]?;
    with_imports(alloc, imports)
}

// `text(a)`
fn anno(alloc: Global, text: &str) -> Result<Anno, AllocError> {
    let name = name(alloc, false, &[text])?;
    let args = vec![in alloc; argument(alloc, None, "a")?]?;
    Ok(Anno {
        name,
        args: Seq::of(args),
        span: SPAN,
    })
}

// `[[f(a)]]`
fn one_anno(alloc: Global) -> Result<Option<Seq<Anno>>, AllocError> {
    let list = vec![in alloc; anno(alloc, "f")?]?;
    Ok(Some(Seq::of(list)))
}

// `module [[f(a), g(a)]];`
fn annotated(alloc: Global) -> Result<Module, AllocError> {
    let list = vec![in alloc; anno(alloc, "f")?, anno(alloc, "g")?]?;
    let mut tree = bare(alloc, false)?;
    tree.annos = Some(Seq::of(list));
    Ok(tree)
}

fn float_type() -> TypeTree {
    TypeTree {
        name: float(),
        size: Size::One,
        span: SPAN,
    }
}

fn plain(alloc: Global) -> Result<Param, AllocError> {
    let name = ident(alloc, "x")?;
    Ok(Param {
        freq: None,
        ty: float_type(),
        name,
        default: None,
        annos: None,
        span: SPAN,
    })
}

fn full(alloc: Global) -> Result<Param, AllocError> {
    let name = ident(alloc, "y")?;
    let default = variable(alloc, "a")?;
    let annos = one_anno(alloc)?;
    Ok(Param {
        freq: Some(Freq::Uniform),
        ty: float_type(),
        name,
        default: Some(default),
        annos,
        span: SPAN,
    })
}

// `float x, uniform float y = a [[f(a)]]`
fn params(alloc: Global) -> Result<Seq<Param>, AllocError> {
    let list = vec![in alloc; plain(alloc)?, full(alloc)?]?;
    Ok(Seq::of(list))
}

// `export material h(..) [[f(a)]] = b;`
fn material(alloc: Global) -> Result<Module, AllocError> {
    let name = ident(alloc, "h")?;
    let params = params(alloc)?;
    let annos = one_anno(alloc)?;
    let body = variable(alloc, "b")?;
    with_one(
        alloc,
        Decl::Material {
            exported: true,
            name,
            params,
            annos,
            body,
            span: SPAN,
        },
    )
}

// `float h(*) [[f(a)]] = g(b);`
fn variant(alloc: Global) -> Result<Module, AllocError> {
    let label = ident(alloc, "h")?;
    let annos = one_anno(alloc)?;
    let base = name(alloc, false, &["g"])?;
    let args = vec![in alloc; argument(alloc, None, "b")?]?;
    with_one(
        alloc,
        Decl::Variant {
            exported: false,
            ty: float_type(),
            name: label,
            annos,
            base,
            args: Seq::of(args),
            span: SPAN,
        },
    )
}

fn function(alloc: Global, freq: Option<Freq>, body: Option<Expr>) -> Result<Decl, AllocError> {
    let name = ident(alloc, "h")?;
    let params = vec![in alloc; plain(alloc)?]?;
    Ok(Decl::Function {
        exported: freq.is_some(),
        ty: float_type(),
        name,
        params: Seq::of(params),
        freq,
        annos: None,
        body,
        span: SPAN,
    })
}

// `float h(float x);` and `export float h(float x) varying = b;`
fn functions(alloc: Global) -> Result<Module, AllocError> {
    let body = variable(alloc, "b")?;
    let prototype = function(alloc, None, None)?;
    let defined = function(alloc, Some(Freq::Varying), Some(body))?;
    let mut tree = bare(alloc, false)?;
    let decls = vec![in alloc; prototype, defined]?;
    tree.decls = Seq::of(decls);
    Ok(tree)
}

// `struct h [[f(a)]] { float x; uniform float y = a [[f(a)]]; };`
fn fields(alloc: Global) -> Result<Module, AllocError> {
    let name = ident(alloc, "h")?;
    let annos = one_anno(alloc)?;
    let fields = params(alloc)?;
    with_one(
        alloc,
        Decl::Struct {
            exported: false,
            name,
            annos,
            fields,
            span: SPAN,
        },
    )
}

// `export enum h { x = 7, y [[f(a)]] };`
fn values(alloc: Global) -> Result<Module, AllocError> {
    let name = ident(alloc, "h")?;
    let numbered = EnumItem {
        name: ident(alloc, "x")?,
        number: Some(7),
        annos: None,
        span: SPAN,
    };
    let annotated = EnumItem {
        name: ident(alloc, "y")?,
        number: None,
        annos: one_anno(alloc)?,
        span: SPAN,
    };
    let values = vec![in alloc; numbered, annotated]?;
    with_one(
        alloc,
        Decl::Enum {
            exported: true,
            name,
            annos: None,
            values: Seq::of(values),
            span: SPAN,
        },
    )
}

// `annotation h() [[f(a)]];`
fn declared(alloc: Global) -> Result<Module, AllocError> {
    let name = ident(alloc, "h")?;
    let annos = one_anno(alloc)?;
    with_one(
        alloc,
        Decl::Annotation {
            exported: false,
            name,
            params: Seq::of(Vec::new(alloc)),
            annos,
            span: SPAN,
        },
    )
}

// What stands behind `mdl 1.6;`.
fn writes(rt: &impl Abort, alloc: Global, tree: Module, expected: &str) -> Result<(), Fail> {
    let mut kinds = Vec::new(alloc);
    push_module(alloc, &mut kinds, &tree)?;
    let told = told(alloc, &kinds)?;
    let mut whole = String::new(alloc);
    whole.push_str(" r33 f1.6 m215")?;
    whole.push_str(expected)?;
    assert_eq!(rt; told.as_str(), whole.as_str());
    Ok(())
}

// Names of one letter are variables, and a number behind `r` or `m` is that of a reserved word or a mark.
#[test]
fn each_form_of_a_module_writes_its_words(rt: HostRuntime) -> Result<(), Fail> {
    let alloc = rt.alloc();
    writes(&rt, alloc, bare(alloc, false)?, "")?;
    let expected = " r24 a m214 b m209 m214 a m214 m207 m209 m211 m214 a m214 b \
        m209 m211 m211 m214 m211 m211 m214 a m214 m207 m215";
    writes(&rt, alloc, imports(alloc)?, expected)?;
    let expected = " r43 a r24 b m209 c m215 r43 m214 d r24 m207 m215";
    writes(&rt, alloc, usings(alloc)?, expected)?;
    let expected = " r34 m226 m226 f m205 a m206 m209 g m205 a m206 m227 m227 m215";
    writes(&rt, alloc, annotated(alloc)?, expected)?;
    let expected = " r14 r32 h m205 r16 x m209 r42 r16 y m219 a \
        m226 m226 f m205 a m206 m227 m227 m206 m226 m226 f m205 a m206 m227 m227 m219 b m215";
    writes(&rt, alloc, material(alloc)?, expected)?;
    let expected =
        " r16 h m205 m207 m206 m226 m226 f m205 a m206 m227 m227 m219 g m205 b m206 m215";
    writes(&rt, alloc, variant(alloc)?, expected)?;
    let expected = " r16 h m205 r16 x m206 m215 r14 r16 h m205 r16 x m206 r44 m219 b m215";
    writes(&rt, alloc, functions(alloc)?, expected)?;
    let expected = " r36 h m226 m226 f m205 a m206 m227 m227 m229 r16 x m215 \
        r42 r16 y m219 a m226 m226 f m205 a m206 m227 m227 m215 m232 m215";
    writes(&rt, alloc, fields(alloc)?, expected)?;
    let expected = " r14 r13 h m229 x m219 i7 m209 y m226 m226 f m205 a m206 m227 m227 m232 m215";
    writes(&rt, alloc, values(alloc)?, expected)?;
    let expected = " r0 h m205 m206 m226 m226 f m205 a m206 m227 m227 m215";
    writes(&rt, alloc, declared(alloc)?, expected)?;
    Ok(())
}

#[test]
fn a_version_may_be_a_double(rt: HostRuntime) -> Result<(), Fail> {
    let alloc = rt.alloc();
    let kinds = write_tokens(alloc, &bare(alloc, true)?)?;
    assert_eq!(rt; told(alloc, &kinds)?.trim_start(), "r33 d1.6 m215");
    Ok(())
}
