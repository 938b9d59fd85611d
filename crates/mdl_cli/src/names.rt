ghost use Rattle.std.specs.Prelude.{◌≡◌};
ghost use Rattle.std.specs.List.{list_any};
ghost use Rattle.std.specs.Str.{bytes_eq};
ghost use Rattle.mdl_cli.specs.Names as names;

const PRELUDE_NAMES: [&str; 9] = [
    "intensity_mode",
    "intensity_radiant_exitance",
    "intensity_power",
    "material_emission",
    "material_surface",
    "material_volume",
    "material_geometry",
    "material",
    "state_normal",
];

/// Whether a name is one of some words.
pub fn is_among(name: &[u8], words: &[&str]) -> bool
    ensures { result ≡ list_any (λ word. bytes_eq name.now word.now) words.now }
{
    words.iter().any(|word| name == word.as_bytes())
}

/// Whether every module sees a name without an import.
pub fn is_prelude_name(name: &[u8]) -> bool
    ensures { result ≡ list_any (bytes_eq name.now) names.prelude_names }
{
    is_among(name, &PRELUDE_NAMES)
}
