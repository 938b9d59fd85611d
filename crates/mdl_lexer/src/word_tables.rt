ghost use Rattle.std.specs.Prelude.{◌≡◌, true};
ghost use Rattle.mdl_lexer.specs.WordTables.{reserved_in_use, reserved_left_out};
ghost use Rattle.mdl_lexer.specs.WordTables.{marks_in_use, marks_left_out, are_apart, numbers};
ghost use Rattle.mdl_lexer.specs.inside.Tokens.{number_in_either};

use crate::{mark, reserved};
use case_table::{Row, Table};

macro_rules! table {
    ($($name:literal = $value:expr),* $(,)?) => {
        Table::new(&[$(Row { name: $name, value: $value }),*]).unwrap()
    };
}

/// The reserved words of the language. Their numbers begin at 0.
pub fn reserved_in_use() -> Table
    ensures { result ≡ reserved_in_use }
{
    table![
        "annotation" = reserved::ANNOTATION,
        "bool" = reserved::BOOL,
        "bool2" = reserved::BOOL2,
        "bool3" = reserved::BOOL3,
        "bool4" = reserved::BOOL4,
        "bsdf" = reserved::BSDF,
        "bsdf_measurement" = reserved::BSDF_MEASUREMENT,
        "color" = reserved::COLOR,
        "double" = reserved::DOUBLE,
        "double2" = reserved::DOUBLE2,
        "double3" = reserved::DOUBLE3,
        "double4" = reserved::DOUBLE4,
        "edf" = reserved::EDF,
        "enum" = reserved::ENUM,
        "export" = reserved::EXPORT,
        "false" = reserved::FALSE,
        "float" = reserved::FLOAT,
        "float2" = reserved::FLOAT2,
        "float2x2" = reserved::FLOAT2X2,
        "float3" = reserved::FLOAT3,
        "float3x3" = reserved::FLOAT3X3,
        "float4" = reserved::FLOAT4,
        "float4x4" = reserved::FLOAT4X4,
        "hair_bsdf" = reserved::HAIR_BSDF,
        "import" = reserved::IMPORT,
        "in" = reserved::IN,
        "int" = reserved::INT,
        "int2" = reserved::INT2,
        "int3" = reserved::INT3,
        "int4" = reserved::INT4,
        "let" = reserved::LET,
        "light_profile" = reserved::LIGHT_PROFILE,
        "material" = reserved::MATERIAL,
        "mdl" = reserved::MDL,
        "module" = reserved::MODULE,
        "string" = reserved::STRING,
        "struct" = reserved::STRUCT,
        "texture_2d" = reserved::TEXTURE_2D,
        "texture_3d" = reserved::TEXTURE_3D,
        "texture_cube" = reserved::TEXTURE_CUBE,
        "texture_ptex" = reserved::TEXTURE_PTEX,
        "true" = reserved::TRUE,
        "uniform" = reserved::UNIFORM,
        "using" = reserved::USING,
        "varying" = reserved::VARYING,
        "vdf" = reserved::VDF,
    ]
}

/// The reserved words that no form uses. Their numbers begin at 100.
pub fn reserved_left_out() -> Table
    ensures { result ≡ reserved_left_out }
{
    table![
        "break" = reserved::BREAK,
        "case" = reserved::CASE,
        "cast" = reserved::CAST,
        "const" = reserved::CONST,
        "continue" = reserved::CONTINUE,
        "default" = reserved::DEFAULT,
        "do" = reserved::DO,
        "double2x2" = reserved::DOUBLE2X2,
        "double2x3" = reserved::DOUBLE2X3,
        "double2x4" = reserved::DOUBLE2X4,
        "double3x2" = reserved::DOUBLE3X2,
        "double3x3" = reserved::DOUBLE3X3,
        "double3x4" = reserved::DOUBLE3X4,
        "double4x2" = reserved::DOUBLE4X2,
        "double4x3" = reserved::DOUBLE4X3,
        "double4x4" = reserved::DOUBLE4X4,
        "else" = reserved::ELSE,
        "float2x3" = reserved::FLOAT2X3,
        "float2x4" = reserved::FLOAT2X4,
        "float3x2" = reserved::FLOAT3X2,
        "float3x4" = reserved::FLOAT3X4,
        "float4x2" = reserved::FLOAT4X2,
        "float4x3" = reserved::FLOAT4X3,
        "for" = reserved::FOR,
        "if" = reserved::IF,
        "return" = reserved::RETURN,
        "switch" = reserved::SWITCH,
        "typedef" = reserved::TYPEDEF,
        "while" = reserved::WHILE,
    ]
}

/// The marks of the language. Their numbers begin at 200.
pub fn marks_in_use() -> Table
    ensures { result ≡ marks_in_use }
{
    table![
        "!" = mark::NOT,
        "!=" = mark::NOT_EQUAL,
        "%" = mark::PERCENT,
        "&" = mark::AND,
        "&&" = mark::AND_AND,
        "(" = mark::OPEN_PARENTHESIS,
        ")" = mark::CLOSE_PARENTHESIS,
        "*" = mark::STAR,
        "+" = mark::PLUS,
        "," = mark::COMMA,
        "-" = mark::MINUS,
        "." = mark::DOT,
        "/" = mark::SLASH,
        ":" = mark::COLON,
        "::" = mark::DOUBLE_COLON,
        ";" = mark::SEMICOLON,
        "<" = mark::LESS,
        "<<" = mark::SHIFT_LEFT,
        "<=" = mark::LESS_EQUAL,
        "=" = mark::EQUAL,
        "==" = mark::EQUAL_EQUAL,
        ">" = mark::GREATER,
        ">=" = mark::GREATER_EQUAL,
        ">>" = mark::SHIFT_RIGHT,
        ">>>" = mark::SHIFT_RIGHT_UNSIGNED,
        "?" = mark::QUESTION,
        "[" = mark::OPEN_BRACKET,
        "]" = mark::CLOSE_BRACKET,
        "^" = mark::CARET,
        "{" = mark::OPEN_BRACE,
        "|" = mark::OR,
        "||" = mark::OR_OR,
        "}" = mark::CLOSE_BRACE,
        "~" = mark::TILDE,
    ]
}

/// The marks that no form uses. Their numbers begin at 300.
pub fn marks_left_out() -> Table
    ensures { result ≡ marks_left_out }
{
    table![
        "%=" = mark::PERCENT_EQUAL,
        "&=" = mark::AND_EQUAL,
        "*=" = mark::STAR_EQUAL,
        "++" = mark::PLUS_PLUS,
        "+=" = mark::PLUS_EQUAL,
        "--" = mark::MINUS_MINUS,
        "-=" = mark::MINUS_EQUAL,
        "/=" = mark::SLASH_EQUAL,
        "<<=" = mark::SHIFT_LEFT_EQUAL,
        ">>=" = mark::SHIFT_RIGHT_EQUAL,
        ">>>=" = mark::SHIFT_RIGHT_UNSIGNED_EQUAL,
        "^=" = mark::CARET_EQUAL,
        "|=" = mark::OR_EQUAL,
    ]
}

/// The number of a word in one of two tables, if it is there.
pub(crate) fn number_in(in_use: &Table, left_out: &Table, word: &[u8]) -> Option<u16>
    ensures { result ≡ number_in_either in_use.now left_out.now word.now }
{
    match in_use.find(word) {
        Some(number) => Some(number),
        None => left_out.find(word),
    }
}

/// The law that a number names its word: no two rows of the four tables share one.
pub fn numbers_are_apart()
    ensures { are_apart numbers ≡ true }
{}
