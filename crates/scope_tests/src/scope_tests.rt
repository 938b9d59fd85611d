ghost use Rattle.std.specs.Prelude.{IfOk, IfSome};
ghost use Rattle.module_set.specs.ModuleSets.{IsModuleSet};

use case_table::{Seq, Text};
use io_edge::{NoGate, SteadySource};
use mdl_grammar::parse_expr;
use mdl_lexer::lex;
use mdl_syntax::{Expr, Name};
use module_loader::load;
use module_set::{ModuleName, ModuleSet};
use scope_core::{EntityId, Looked, ScopeFault, Scopes};
use std::alloc::{AllocError, Global};
use std::test::Fail;
use std::thread::Threads;

fn name(alloc: Global, written: &str) -> Result<ModuleName, AllocError> {
    let mut parts = Vec::new(alloc);
    for part in written.split("::") {
        if !part.is_empty() {
            parts.push(Text::of(String::from_str(alloc, part)?))?;
        }
    }
    Ok(ModuleName {
        parts: Seq::of(parts),
    })
}

/// Modules as `path=lines behind the version` with `|` between and `@` for a line feed.
fn set_of<R: Threads + Sync>(
    rt: &R,
    alloc: Global,
    written: &str,
    first: &str,
) -> Result<Option<ModuleSet>, AllocError>
    ensures { IfOk result (λ set. IfSome set IsModuleSet) }
{
    let mut files = Vec::new(alloc);
    for file in written.split("|") {
        if let Some((path, text)) = file.split_once("=") {
            let text = format!(in alloc; "mdl 1.6;@{text}@")?.replace(alloc, "@", "\n")?;
            let bytes = Vec::from_slice(alloc, text.as_bytes())?;
            files.push((format!(in alloc; "r/{path}.mdl")?, bytes))?;
        }
    }
    let mut source = SteadySource::new(files);
    let mut roots = Vec::new(alloc);
    roots.push(String::from_str(alloc, "r")?)?;
    let mut asked = Vec::new(alloc);
    for written in first.split(" ") {
        asked.push(name(alloc, written)?)?;
    }
    match load(rt, alloc, &mut source, &roots, &asked, 1, &NoGate) {
        Ok(set) => Ok(Some(set)),
        Err(_) => Ok(None),
    }
}

fn placed(
    alloc: Global,
    set: &ModuleSet,
    kind: &str,
    module: u32,
    at: u32,
) -> Result<String, AllocError> {
    match set.texts.list().get(module as usize) {
        Some(text) => {
            let (line, column) = line_and_column(text.as_str(), at as usize);
            format!(in alloc; "{kind} {module} {line}:{column}")
        }
        None => String::from_str(alloc, "no such module"),
    }
}

/// The line and the column of a byte, both from 1.
fn line_and_column(text: &str, at: usize) -> (usize, usize) {
    let mut line: usize = 1;
    let mut column: usize = 1;
    for (offset, character) in text.char_indices() {
        if offset >= at {
            return (line, column);
        }
        if character == '\n' {
            line = line.saturating_add(1);
            column = 1;
        } else {
            column = column.saturating_add(1);
        }
    }
    (line, column)
}

fn fault_of(alloc: Global, set: &ModuleSet) -> Result<String, AllocError>
    requires { IsModuleSet set.now }
{
    match Scopes::new(alloc, set) {
        Ok(_) => String::from_str(alloc, "ok"),
        Err(ScopeFault::Twice { module, at }) => placed(alloc, set, "twice", module, at),
        Err(ScopeFault::Unknown { module, at }) => placed(alloc, set, "unknown", module, at),
        Err(ScopeFault::NotExported { module, at }) => {
            placed(alloc, set, "not exported", module, at)
        }
        Err(ScopeFault::Clash { module, at }) => placed(alloc, set, "clash", module, at),
        Err(ScopeFault::OutOfMemory) => String::from_str(alloc, "out of memory"),
    }
}

/// The rows of a table whose fault is another, with it. In each line stand modules, those that are asked for, and the
/// fault with the index of its module, with ` # ` between.
fn wrong_faults<R: Threads + Sync>(
    rt: &R,
    alloc: Global,
    rows: &str,
) -> Result<String, AllocError> {
    let mut wrong = String::new(alloc);
    for row in rows.lines() {
        if let Some((modules, rest)) = row.split_once(" # ") {
            if let Some((first, fault)) = rest.split_once(" # ") {
                let told = match set_of(rt, alloc, modules, first)? {
                    Some(set) => fault_of(alloc, &set)?,
                    None => String::from_str(alloc, "no set")?,
                };
                if told.as_str() != fault {
                    wrong.push_str(&format!(in alloc; "{modules} -> {told}, wanted {fault}\n")?)?;
                }
            }
        }
    }
    Ok(wrong)
}

/// Declarations, values and parameters of one name.
const DECLARED: &str = "
m=float f(float a); float f(float b); # ::m # twice 0 2:25
m=using ::anno import nothing; # ::m # unknown 0 2:21
m=float f(float a); float f(int b); float f(); # ::m # ok
m=float f(float a); float f(float b) = b; # ::m # ok
m=float f(float a) = a; float f(float b); # ::m # ok
m=float f(float a) = a; float f(float b) = b; # ::m # twice 0 2:29
m=float f(); float f() = 1.0; float f(); # ::m # twice 0 2:35
m=float f(float[2] a); float f(float[3] a); float f(float a); # ::m # ok
m=float f(float[<n>] a); float f(float[<m>] a); # ::m # twice 0 2:30
// sizes of types that aren't known are compared as they are written
m=float f(T[<n>] a); float f(T[<m>] a); # ::m # ok
m=float f(T a); float f(::m::T a); # ::m # ok
m=struct T {}; float f(T a); float f(::m::T a); # ::m # twice 0 2:34
m=float f(T a); float f(T a); # ::m # twice 0 2:21
// results and marks aren't compared
m=float f(); int f(); # ::m # twice 0 2:16
m=annotation a(); annotation a(int b); # ::m # ok
m=annotation a(int b); annotation a(int c); # ::m # twice 0 2:33
m=annotation a(); float a(); # ::m # twice 0 2:23
m=struct a {}; float a(); # ::m # twice 0 2:20
m=enum e { a, b }; float b(); # ::m # twice 0 2:24
m=enum e { a, a }; # ::m # twice 0 2:13
m=enum e { e }; # ::m # twice 0 2:10
m=export material a() = material(); material a(); # ::m # twice 0 2:44
m=export material a() = material(); export material a(int b) = material(); # ::m # twice 0 2:51
m=float f(int a, float a) = a; # ::m # twice 0 2:22
m=struct s { int a; float b; int a; }; # ::m # twice 0 2:32
m=annotation f(int a, float a); # ::m # twice 0 2:27
m=material f(int a, float a) = material(); # ::m # twice 0 2:25
// an earlier place comes first
m=float f(int a, float a) = a; int b(); int b(); # ::m # twice 0 2:22
m=int b(int a, int a); int b(int c, int d); # ::m # twice 0 2:18
m=import ::q::x, ::q::y; int b(); int b();|q=export int x(); int y(); # ::m # not exported 0 2:21
m=import ::q::z, ::q::y; int b(); int b();|q=export int x(); int y(); # ::m # unknown 0 2:13
// an earlier module too
m=import ::q::*; int b(); int b();|q=int x(); int x(); # ::m # twice 0 2:29
m=import ::q::*;|q=int x(); int x(); # ::m # twice 1 2:14
";

/// Names of imports that aren't there, or not exported.
const IMPORTED: &str = "
// names of an import
m=import ::q::e;|q=export enum e { a }; # ::m # ok
m=import ::q::a;|q=export enum e { a }; # ::m # ok
m=import ::q::a;|q=enum e { a }; # ::m # not exported 0 2:13
// some of the overloads are exported
m=import ::q::f;|q=int f(int a); export int f(); # ::m # ok
// only the definition's mark counts
m=import ::q::f;|q=export int f(); int f() = 1; # ::m # not exported 0 2:13
m=import ::q::f;|q=int f(); export int f() = 1; # ::m # ok
";

/// Names of a `using` that stand for something else too.
const USED: &str = "
// names of a `using`
m=using ::q import x; int x();|q=export int x(int a); # ::m # ok
m=using ::q import x; struct x {};|q=export int x(int a); # ::m # clash 0 2:18
m=using ::q import x; enum e { x };|q=export int x(int a); # ::m # clash 0 2:18
m=using ::q import x; material x() = material();|q=export material x() = material(); # ::m # clash 0 2:18
m=using ::q import *; struct x {};|q=export int x(int a); # ::m # ok
m=import ::q::x; struct x {};|q=export int x(int a); # ::m # ok
m=using ::q import x; using ::p import x;|q=export int x(int a);|p=export int x(int b); # ::m # ok
m=using ::q import x; using ::p import x;|q=export int x(int a);|p=export struct x {}; # ::m # clash 0 2:38
m=using ::q import x; using ::q import x;|q=export struct x {}; # ::m # ok
m=using ::p import x; using ::q import x; using ::q import x;|q=export int x();|p=export struct x {}; # ::m # clash 0 2:38
m=using ::q import x; using ::p import *;|q=export int x(int a);|p=export struct x {}; # ::m # ok
m=using ::q import x; annotation x();|q=export annotation x(int a); # ::m # ok
";

/// Variants, which take what their bases take.
const VARIANTS: &str = "
// a variant counts as a definition, with what its base takes
m=float f(float a); float f(*) = g(); float g(float a) = a; # ::m # ok
m=float f(float a); float f(float b) = b; float f(*) = g(); float g(float a) = a; # ::m # twice 0 2:47
m=float f(float b) = b; float f(*) = g(); float g(int a) = 1.0; # ::m # ok
m=float f() = 1.0; float f(*) = g(); float g(int a) = 1.0; float g(float a) = 1.0; # ::m # twice 0 2:24
m=float f(float a) = a; float f(*) = g(); float g(*) = h(); float h(float a) = 1.0; # ::m # twice 0 2:29
// through a prototype that its definition hides
m=float f(float a) = a; float f(*) = g(); float g(float a); float g(float a) = 1.0; # ::m # twice 0 2:29
m=float f(float a) = a; float f(*) = g(); float g(float a); float g(*) = h(); float h(float a) = 1.0; # ::m # twice 0 2:29
m=float f(float a) = a; float f(*) = g(); float g(int a); float g(*) = h(); float h(float a) = 1.0; # ::m # ok
// bases in a circle take nothing
m=float f() = 1.0; float f(*) = g(); float g(*) = h(); float h(*) = g(); # ::m # twice 0 2:24
m=float f(); float f(*) = f(); # ::m # ok
m=float f(float a); float f(*) = f(a: 1.0); # ::m # ok
// a base with a parameter of deferred size counts as none
m=float f() = 1.0; float f(*) = g(); float g(float[<n>] a); # ::m # twice 0 2:24
";

/// Types by which overloads are told apart.
const TYPES: &str = "
// fields of a struct, and of the prelude
m=float f(int a) = 1.0; float f(*) = s(); struct s { int b = 1; }; # ::m # twice 0 2:29
m=float f(bsdf a, material_emission b) = 1.0; float f(*) = material_surface(); # ::m # twice 0 2:51
m=float f() = 1.0; float f(*) = float2(); # ::m # twice 0 2:24
// a type of another module hides behind nothing that isn't exported
m=using ::q import *; using ::r import *; float f(T a); float f(::r::T a);|q=export int T(); int T() = 1;|r=export struct T {}; # ::m # twice 0 2:61
m=using ::q import *; using ::r import *; float f(T a); float f(::r::T a);|q=export int T(); int T(int a) = 1;|r=export struct T {}; # ::m # ok
m=material_surface f(material_surface a); int f(::m::material_surface a); struct material_surface {}; # ::m # twice 0 2:45
m=float f(material a); float f(material_surface a); float f(intensity_mode a); # ::m # ok
";

#[test]
fn declarations_of_one_name(rt: HostRuntime) -> Result<(), Fail> {
    let alloc = rt.alloc();
    let wrong = wrong_faults(&rt, alloc, DECLARED)?;
    assert_eq!(rt; wrong.as_str(), "");
    Ok(())
}

#[test]
fn imported_names(rt: HostRuntime) -> Result<(), Fail> {
    let alloc = rt.alloc();
    let wrong = wrong_faults(&rt, alloc, IMPORTED)?;
    assert_eq!(rt; wrong.as_str(), "");
    Ok(())
}

#[test]
fn used_names(rt: HostRuntime) -> Result<(), Fail> {
    let alloc = rt.alloc();
    let wrong = wrong_faults(&rt, alloc, USED)?;
    assert_eq!(rt; wrong.as_str(), "");
    Ok(())
}

#[test]
fn variants_of_one_name(rt: HostRuntime) -> Result<(), Fail> {
    let alloc = rt.alloc();
    let wrong = wrong_faults(&rt, alloc, VARIANTS)?;
    assert_eq!(rt; wrong.as_str(), "");
    Ok(())
}

#[test]
fn types_of_one_name(rt: HostRuntime) -> Result<(), Fail> {
    let alloc = rt.alloc();
    let wrong = wrong_faults(&rt, alloc, TYPES)?;
    assert_eq!(rt; wrong.as_str(), "");
    Ok(())
}

fn parsed_name(alloc: Global, written: &str) -> Result<Option<Name>, AllocError> {
    let text = format!(in alloc; "{written}()")?;
    if text.len() > 4194304 {
        return Ok(None);
    }
    if let Ok(tokens) = lex(alloc, text.as_bytes()) {
        if let Ok(Expr::Call { name, .. }) = parse_expr(alloc, &tokens) {
            return Ok(Some(name));
        }
    }
    Ok(None)
}

fn push_id(text: &mut String, alloc: Global, id: EntityId) -> Result<(), AllocError> {
    text.push_str(&format!(in alloc; " {}.{}.{}", id.module, id.decl, id.part)?)?;
    Ok(())
}

fn looked_told(alloc: Global, looked: &Looked) -> Result<String, AllocError> {
    let mut text = String::new(alloc);
    match looked {
        Looked::Found(ids) => {
            text.push_str("found")?;
            for id in ids.list() {
                push_id(&mut text, alloc, *id)?;
            }
        }
        Looked::Unknown => text.push_str("unknown")?,
        Looked::NotExported => text.push_str("not exported")?,
        Looked::Clash { a, b } => {
            text.push_str("clash")?;
            push_id(&mut text, alloc, *a)?;
            push_id(&mut text, alloc, *b)?;
        }
    }
    Ok(text)
}

#[test]
fn names_that_are_looked_for(rt: HostRuntime) -> Result<(), Fail> {
    let alloc = rt.alloc();
    // modules, and for each a name that is looked for in the first of them, and what is found
    let rows = [
        (
            "m=int a(); enum e { b, c }; struct s {};",
            "a=found 0.0.0;e=found 0.1.0;b=found 0.1.1;c=found 0.1.2;s=found 0.2.0;m::a=found 0.0.0;::m::c=found 0.1.2;x=unknown;::a=unknown;n::a=unknown",
        ),
        (
            "m=import ::q::*;|q=export int a(); int b(); export enum e { c };",
            "a=unknown;q::a=found 1.0.0;::q::a=found 1.0.0;q::b=not exported;::q::b=not exported;q::c=found 1.2.1;q::x=unknown;::p::a=unknown",
        ),
        (
            "m=using ::q import *;|q=export int a(); int b();",
            "a=found 1.0.0;q::a=found 1.0.0;b=not exported",
        ),
        (
            "m=using ::q import e; import ::q::a;|q=export int a(); export enum e { c, d }; export int f();",
            "e=found 1.1.0;c=found 1.1.1;d=found 1.1.2;a=unknown;q::a=found 1.0.0;q::d=found 1.1.2;f=unknown;q::f=unknown",
        ),
        // the prelude, and what hides it
        (
            "m=int a();",
            "material=found 1.5.0;material_surface=found 1.2.0;intensity_power=found 1.0.2;state_normal=found 1.6.0;m::material_surface=unknown;::material_surface=unknown;float=unknown",
        ),
        (
            "m=struct material_surface {};",
            "material_surface=found 0.0.0;material=found 1.5.0",
        ),
        (
            "m=import ::q::*;|q=export struct material_surface {};",
            "material_surface=found 2.2.0;q::material_surface=found 1.0.0",
        ),
        // overloads and clashes
        (
            "m=int a(); int a(int b); int a(float b) = 1;",
            "a=found 0.0.0 0.1.0 0.2.0",
        ),
        (
            "m=int a(); int a() = 1; int a(int b);",
            "a=found 0.1.0 0.2.0",
        ),
        (
            "m=using ::q import *; using ::p import *;|q=export int a();|p=export struct a {}; export annotation b();",
            "a=clash 1.0.0 2.0.0;b=found 2.1.0",
        ),
        (
            "m=using ::q import *; int a(int b);|q=export int a(); export int c();",
            "a=found 0.0.0 1.0.0;m::a=found 0.0.0;q::a=found 1.0.0",
        ),
        // modules whose names end alike
        (
            "m=import ::a::q::*, ::b::q::*;|a/q=export int x(); export struct s {};|b/q=export int x(int a); export struct s {};",
            "q::x=found 1.0.0 2.0.0;a::q::x=found 1.0.0;::b::q::x=found 2.0.0;q::s=clash 1.1.0 2.1.0;::q::x=unknown;c::a::q::x=unknown",
        ),
        // in the order of the modules, whatever that of the imports
        (
            "m=import ::a::*, ::b::*; using ::b import *; using ::a import *;|a=export int x();|b=export int x(int a);",
            "x=found 1.0.0 2.0.0",
        ),
        // a prototype that is exported beside a definition that isn't
        (
            "m=import ::q::*;|q=export int a(); int a() = 1;",
            "q::a=not exported",
        ),
    ];
    let mut wrong = String::new(alloc);
    for (modules, looks) in rows {
        match set_of(&rt, alloc, modules, "::m")? {
            Some(set) => wrong.push_str(&wrong_looks(alloc, &set, modules, looks)?)?,
            None => wrong.push_str(&format!(in alloc; "{modules} -> no set\n")?)?,
        }
    }
    assert_eq!(rt; wrong.as_str(), "");
    Ok(())
}

/// The names that find something else than is wanted, with it.
fn wrong_looks(
    alloc: Global,
    set: &ModuleSet,
    modules: &str,
    looks: &str,
) -> Result<String, AllocError>
    requires { IsModuleSet set.now }
{
    let mut wrong = String::new(alloc);
    for look in looks.split(";") {
        if let Some((written, wanted)) = look.split_once("=") {
            let told = look_told(alloc, set, written)?;
            if told.as_str() != wanted {
                wrong.push_str(&format!(in alloc;
                    "{modules}: {written} -> {told}, wanted {wanted}\n"
                )?)?;
            }
        }
    }
    Ok(wrong)
}

/// What a name finds in the first module.
fn look_told(alloc: Global, set: &ModuleSet, written: &str) -> Result<String, AllocError>
    requires { IsModuleSet set.now }
{
    let Ok(scopes) = Scopes::new(alloc, set) else {
        return fault_of(alloc, set);
    };
    let Some(name) = parsed_name(alloc, written)? else {
        return String::from_str(alloc, "no name");
    };
    match scopes.look(alloc, 0, &name) {
        Ok(looked) => looked_told(alloc, &looked),
        Err(_) => String::from_str(alloc, "out of memory"),
    }
}
