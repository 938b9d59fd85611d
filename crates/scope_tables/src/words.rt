ghost use Rattle.std.specs.Prelude.{◌≡◌, [], map, slice_index_or};
ghost use Rattle.scope_tables.specs.Visible.{word_text};

/// The reserved words in use, by their numbers.
const WORDS: [&str; 46] = [
    "annotation",
    "bool",
    "bool2",
    "bool3",
    "bool4",
    "bsdf",
    "bsdf_measurement",
    "color",
    "double",
    "double2",
    "double3",
    "double4",
    "edf",
    "enum",
    "export",
    "false",
    "float",
    "float2",
    "float2x2",
    "float3",
    "float3x3",
    "float4",
    "float4x4",
    "hair_bsdf",
    "import",
    "in",
    "int",
    "int2",
    "int3",
    "int4",
    "let",
    "light_profile",
    "material",
    "mdl",
    "module",
    "string",
    "struct",
    "texture_2d",
    "texture_3d",
    "texture_cube",
    "texture_ptex",
    "true",
    "uniform",
    "using",
    "varying",
    "vdf",
];

/// How a reserved word is written.
pub fn word_text(word: u16) -> &'static str
    ensures { result.now ≡ word_text word }
{
    text_at(&WORDS, word as usize)
}

/// The text at an index, or an empty one.
fn text_at(texts: &[&'static str], index: usize) -> &'static str
    ensures { result.now ≡ slice_index_or (map (λ text. text.now) texts.now) index [] }
{
    match texts.get(index) {
        Some(text) => *text,
        None => "",
    }
}
