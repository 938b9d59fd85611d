ghost use Rattle.std.specs.Prelude.{◌≡◌, IfOk, map};
ghost use Rattle.type_rules.specs.Types.{plain};
ghost use Rattle.mdl_cli.specs.inside.Reading as reading;
ghost use Rattle.mdl_cli.specs.inside.Rows.{field_arg, form_symbol, form_row};

use case_table::{Seq, Text};
use mdl_lexer::{Kind, reserved};
use std::alloc::{AllocError, Global};
use type_rules::{Arg, Shape, Symbol, Ty};

/// A field of a constructor by its type's name.
#[derive(Clone, Copy)]
enum Field {
    Varies(&'static str),
    Uniform(&'static str),
}

/// What a name stands for.
#[derive(Clone, Copy)]
enum Head {
    Truth(bool),
    /// A value of the enum of this name.
    Value(&'static str),
    /// An operation on fields, with the type of its result.
    Operation {
        fields: &'static [Field],
        result: &'static str,
        varying: bool,
    },
}

#[derive(Clone, Copy)]
struct Form {
    name: &'static str,
    /// The number of the name, if it is a reserved word.
    reserved: Option<u16>,
    head: Head,
}

const FORMS: [Form; 16] = [
    Form {
        name: "true",
        reserved: Some(reserved::TRUE),
        head: Head::Truth(true),
    },
    Form {
        name: "false",
        reserved: Some(reserved::FALSE),
        head: Head::Truth(false),
    },
    Form {
        name: "intensity_radiant_exitance",
        reserved: None,
        head: Head::Value("intensity_mode"),
    },
    Form {
        name: "intensity_power",
        reserved: None,
        head: Head::Value("intensity_mode"),
    },
    Form {
        name: "bsdf",
        reserved: Some(reserved::BSDF),
        head: Head::Operation {
            fields: &[],
            result: "bsdf",
            varying: false,
        },
    },
    Form {
        name: "edf",
        reserved: Some(reserved::EDF),
        head: Head::Operation {
            fields: &[],
            result: "edf",
            varying: false,
        },
    },
    Form {
        name: "vdf",
        reserved: Some(reserved::VDF),
        head: Head::Operation {
            fields: &[],
            result: "vdf",
            varying: false,
        },
    },
    Form {
        name: "hair_bsdf",
        reserved: Some(reserved::HAIR_BSDF),
        head: Head::Operation {
            fields: &[],
            result: "hair_bsdf",
            varying: false,
        },
    },
    Form {
        name: "state_normal",
        reserved: None,
        head: Head::Operation {
            fields: &[],
            result: "float3",
            varying: true,
        },
    },
    Form {
        name: "color",
        reserved: Some(reserved::COLOR),
        head: Head::Operation {
            fields: &[Field::Varies("float")],
            result: "color",
            varying: false,
        },
    },
    Form {
        name: "float3",
        reserved: Some(reserved::FLOAT3),
        head: Head::Operation {
            fields: &[Field::Varies("float")],
            result: "float3",
            varying: false,
        },
    },
    Form {
        name: "material_emission",
        reserved: None,
        head: Head::Operation {
            fields: &[
                Field::Varies("edf"),
                Field::Varies("color"),
                Field::Varies("intensity_mode"),
            ],
            result: "material_emission",
            varying: false,
        },
    },
    Form {
        name: "material_surface",
        reserved: None,
        head: Head::Operation {
            fields: &[Field::Varies("bsdf"), Field::Varies("material_emission")],
            result: "material_surface",
            varying: false,
        },
    },
    Form {
        name: "material_volume",
        reserved: None,
        head: Head::Operation {
            fields: &[
                Field::Varies("vdf"),
                Field::Varies("color"),
                Field::Varies("color"),
            ],
            result: "material_volume",
            varying: false,
        },
    },
    Form {
        name: "material_geometry",
        reserved: None,
        head: Head::Operation {
            fields: &[
                Field::Varies("float3"),
                Field::Varies("float"),
                Field::Varies("float3"),
            ],
            result: "material_geometry",
            varying: false,
        },
    },
    Form {
        name: "material",
        reserved: Some(reserved::MATERIAL),
        head: Head::Operation {
            fields: &[
                Field::Uniform("bool"),
                Field::Varies("material_surface"),
                Field::Varies("material_surface"),
                Field::Uniform("color"),
                Field::Varies("material_volume"),
                Field::Varies("material_geometry"),
                Field::Varies("hair_bsdf"),
            ],
            result: "material",
            varying: false,
        },
    },
];

/// The symbol that a word stands for, reals aside.
#[tactic(auto, unfolding(crate::specs::inside::Reading::word_forms))]
pub fn symbol_named(alloc: Global, word: &Kind) -> Result<Option<Symbol>, AllocError>
    ensures { IfOk result (λ found. found ≡ reading.symbol_among reading.word_forms word.now) }
{
    let found = symbol_among(alloc, word, &FORMS)?;
    Ok(found)
}

fn symbol_among(alloc: Global, word: &Kind, forms: &[Form]) -> Result<Option<Symbol>, AllocError>
    ensures { IfOk result (λ found. found ≡ reading.symbol_among (map form_row forms.now) word.now) }
{
    for form in forms {
        if is_written(form, word) {
            let symbol = symbol_of(alloc, form)?;
            return Ok(Some(symbol));
        }
    }
    Ok(None)
}

/// Whether a word is that of a form.
fn is_written(form: &Form, word: &Kind) -> bool
    ensures { result ≡ reading.same_word (form_row form.now).0 word.now }
{
    match form.reserved {
        Some(number) => match word {
            Kind::Reserved(found) => number == *found,
            _ => false,
        },
        None => match word {
            Kind::Word(name) => form.name == name.as_str(),
            _ => false,
        },
    }
}

fn symbol_of(alloc: Global, form: &Form) -> Result<Symbol, AllocError>
    ensures { IfOk result (λ symbol. symbol ≡ form_symbol form.now.name.now form.now.head) }
{
    match form.head {
        Head::Truth(value) => Ok(Symbol::Bool(value)),
        Head::Value(ty) => {
            let ty = Text::copy(alloc, ty)?;
            let value = Text::copy(alloc, form.name)?;
            Ok(Symbol::EnumValue { ty, value })
        }
        Head::Operation {
            fields,
            result,
            varying,
        } => {
            let name = Text::copy(alloc, form.name)?;
            let args = args_of(alloc, fields)?;
            let result = plain(alloc, result)?;
            Ok(Symbol::Op {
                name,
                args,
                result,
                varying,
            })
        }
    }
}

fn args_of(alloc: Global, fields: &[Field]) -> Result<Seq<Arg>, AllocError>
    ensures { IfOk result (λ args. args ≡ map field_arg fields.now) }
{
    let mut args = Vec::new(alloc);
    for field in fields {
        args.push(arg_of(alloc, *field)?)?;
    }
    Ok(Seq::of(args))
}

fn arg_of(alloc: Global, field: Field) -> Result<Arg, AllocError>
    ensures { IfOk result (λ arg. arg ≡ field_arg field) }
{
    match field {
        Field::Varies(name) => {
            let ty = plain(alloc, name)?;
            Ok(Arg { ty, uniform: false })
        }
        Field::Uniform(name) => {
            let ty = plain(alloc, name)?;
            Ok(Arg { ty, uniform: true })
        }
    }
}

/// The type of a name that is no array.
pub fn plain(alloc: Global, name: &str) -> Result<Ty, AllocError>
    ensures { IfOk result (λ ty. ty ≡ plain name.now) }
{
    let name = Text::copy(alloc, name)?;
    Ok(Ty {
        name,
        shape: Shape::One,
    })
}
