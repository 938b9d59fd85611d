//! The numbers of the reserved words, as the tables give them.

// Reserved words that a form of the language has.
pub const ANNOTATION: u16 = 0;

pub const BOOL: u16 = 1;

pub const BOOL2: u16 = 2;

pub const BOOL3: u16 = 3;

pub const BOOL4: u16 = 4;

pub const BSDF: u16 = 5;

pub const BSDF_MEASUREMENT: u16 = 6;

pub const COLOR: u16 = 7;

pub const DOUBLE: u16 = 8;

pub const DOUBLE2: u16 = 9;

pub const DOUBLE3: u16 = 10;

pub const DOUBLE4: u16 = 11;

pub const EDF: u16 = 12;

pub const ENUM: u16 = 13;

pub const EXPORT: u16 = 14;

pub const FALSE: u16 = 15;

pub const FLOAT: u16 = 16;

pub const FLOAT2: u16 = 17;

pub const FLOAT2X2: u16 = 18;

pub const FLOAT3: u16 = 19;

pub const FLOAT3X3: u16 = 20;

pub const FLOAT4: u16 = 21;

pub const FLOAT4X4: u16 = 22;

pub const HAIR_BSDF: u16 = 23;

pub const IMPORT: u16 = 24;

pub const IN: u16 = 25;

pub const INT: u16 = 26;

pub const INT2: u16 = 27;

pub const INT3: u16 = 28;

pub const INT4: u16 = 29;

pub const LET: u16 = 30;

pub const LIGHT_PROFILE: u16 = 31;

pub const MATERIAL: u16 = 32;

pub const MDL: u16 = 33;

pub const MODULE: u16 = 34;

pub const STRING: u16 = 35;

pub const STRUCT: u16 = 36;

pub const TEXTURE_2D: u16 = 37;

pub const TEXTURE_3D: u16 = 38;

pub const TEXTURE_CUBE: u16 = 39;

pub const TEXTURE_PTEX: u16 = 40;

pub const TRUE: u16 = 41;

pub const UNIFORM: u16 = 42;

pub const USING: u16 = 43;

pub const VARYING: u16 = 44;

pub const VDF: u16 = 45;

// Reserved words that no form has.
pub const BREAK: u16 = 100;

pub const CASE: u16 = 101;

pub const CAST: u16 = 102;

pub const CONST: u16 = 103;

pub const CONTINUE: u16 = 104;

pub const DEFAULT: u16 = 105;

pub const DO: u16 = 106;

pub const DOUBLE2X2: u16 = 107;

pub const DOUBLE2X3: u16 = 108;

pub const DOUBLE2X4: u16 = 109;

pub const DOUBLE3X2: u16 = 110;

pub const DOUBLE3X3: u16 = 111;

pub const DOUBLE3X4: u16 = 112;

pub const DOUBLE4X2: u16 = 113;

pub const DOUBLE4X3: u16 = 114;

pub const DOUBLE4X4: u16 = 115;

pub const ELSE: u16 = 116;

pub const FLOAT2X3: u16 = 117;

pub const FLOAT2X4: u16 = 118;

pub const FLOAT3X2: u16 = 119;

pub const FLOAT3X4: u16 = 120;

pub const FLOAT4X2: u16 = 121;

pub const FLOAT4X3: u16 = 122;

pub const FOR: u16 = 123;

pub const IF: u16 = 124;

pub const RETURN: u16 = 125;

pub const SWITCH: u16 = 126;

pub const TYPEDEF: u16 = 127;

pub const WHILE: u16 = 128;
