ghost use Rattle.std.specs.Prelude.{◌≡◌};
ghost use Rattle.std.specs.Option.{option_map};
ghost use Rattle.module_loader.specs.Embedded.{embedded, embedded_at};

use module_set::ModuleName;

const DF: &str = "mdl 1.6;
export enum scatter_mode { scatter_reflect, scatter_transmit, scatter_reflect_transmit };
export struct bsdf_component { float weight = 0.0; bsdf component = bsdf(); };
export bsdf diffuse_reflection_bsdf(color tint = color(1.0), float roughness = 0.0);
export bsdf diffuse_transmission_bsdf(color tint = color(1.0));
export bsdf specular_bsdf(color tint = color(1.0), uniform scatter_mode mode = scatter_reflect);
export bsdf simple_glossy_bsdf(float roughness_u, float roughness_v = roughness_u, color tint = color(1.0), uniform scatter_mode mode = scatter_reflect);
export bsdf weighted_layer(float weight, bsdf layer = bsdf(), bsdf base = bsdf(), float3 normal = state_normal());
export bsdf fresnel_layer(float ior, float weight = 1.0, bsdf layer = bsdf(), bsdf base = bsdf(), float3 normal = state_normal());
export bsdf tint(color tint, bsdf base);
export edf tint(color tint, edf base);
export bsdf normalized_mix(bsdf_component[<n>] components);
export bsdf clamped_mix(bsdf_component[<n>] components);
export edf diffuse_edf();
export vdf anisotropic_vdf(float directional_bias = 0.0);
";

const STATE: &str = "mdl 1.6;
export float3 normal() = state_normal();
export float3 position() varying;
export float3 geometry_normal() varying;
export float3 texture_coordinate(uniform int index) varying;
export float3 texture_tangent_u(uniform int index) varying;
export float3 texture_tangent_v(uniform int index) varying;
";

const MATH: &str = "mdl 1.6;
export float abs(float a);
export float min(float a, float b);
export float max(float a, float b);
export float clamp(float a, float min, float max);
export float pow(float a, float b);
export float sqrt(float a);
export float sin(float a);
export float cos(float a);
export float floor(float a);
export float dot(float3 a, float3 b);
export float3 normalize(float3 a);
export float luminance(color a);
export float lerp(float a, float b, float l);
export float3 lerp(float3 a, float3 b, float l);
export color lerp(color a, color b, float l);
";

const TEX: &str = "mdl 1.6;
export enum gamma_mode { gamma_default, gamma_linear, gamma_srgb };
export enum wrap_mode { wrap_clamp, wrap_repeat, wrap_mirrored_repeat, wrap_clip };
export color lookup_color(uniform texture_2d tex, float2 coord, uniform wrap_mode wrap_u = wrap_repeat, uniform wrap_mode wrap_v = wrap_repeat);
export float lookup_float(uniform texture_2d tex, float2 coord, uniform wrap_mode wrap_u = wrap_repeat, uniform wrap_mode wrap_v = wrap_repeat);
export float3 lookup_float3(uniform texture_2d tex, float2 coord, uniform wrap_mode wrap_u = wrap_repeat, uniform wrap_mode wrap_v = wrap_repeat);
";

const ANNO: &str = "mdl 1.6;
export annotation display_name(string name);
export annotation description(string text);
export annotation in_group(string group);
export annotation in_group(string group, string subgroup);
export annotation author(string name);
export annotation key_words(string[<n>] words);
export annotation hidden();
export annotation unused();
export annotation soft_range(float min, float max);
export annotation soft_range(int min, int max);
export annotation hard_range(float min, float max);
export annotation hard_range(int min, int max);
";

/// The embedded text of a module, where it has one.
pub fn embedded(name: &ModuleName) -> Option<&'static str>
    ensures { option_map (λ text. text.now) result ≡ embedded name.now }
{
    match name.parts.list() {
        [name] => embedded_at(name.as_str()),
        _ => None,
    }
}

fn embedded_at(name: &str) -> Option<&'static str>
    ensures { option_map (λ text. text.now) result ≡ embedded_at name.now }
{
    match name {
        "df" => Some(DF),
        "state" => Some(STATE),
        "math" => Some(MATH),
        "tex" => Some(TEX),
        "anno" => Some(ANNO),
        _ => None,
    }
}
