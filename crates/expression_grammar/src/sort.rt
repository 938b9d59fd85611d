ghost use Rattle.std.specs.Prelude.{◌≡◌, Some, None, MatchOption};
ghost use Rattle.mdl_lexer.specs.WordTables.{reserved_left_out, marks_left_out};
ghost use Rattle.mdl_syntax.specs.Levels.{is_unary as is_unary_operator, binary_level as level_of};
ghost use Rattle.mdl_syntax.specs.Levels.{is_type_word as names_type};
ghost use Rattle.expression_grammar.specs.Languages.{text_in};
ghost use Rattle.expression_grammar.specs.inside.Machine.{mark_sort, reserved_sort, sort_among};
ghost use Rattle.expression_grammar.specs.inside.Machine.{mark_sorts, reserved_sorts, sort_of as machine_sort};
ghost use Rattle.mdl_syntax.specs.Levels.{mark_number, reserved_number};
ghost use Rattle.expression_grammar.specs.inside.SortViews.{sort_view, known_view};

use case_table::Text;
use mdl_lexer::{Kind, mark, reserved};
use mdl_syntax::Freq;

/// What a word may be in an expression.
#[derive(Clone, Copy, Debug)]
pub enum Sort<'t> {
    Identifier(&'t Text),
    Integer(u32),
    Bool(bool),
    Real { text: &'t Text, double: bool },
    Str(&'t Text),
    TypeWord(u16),
    /// An operator before its operand alone.
    UnaryOperator(u16),
    /// An operator before its operand, or between two.
    EitherOperator { op: u16, level: u8 },
    /// An operator between two alone.
    BinaryOperator { op: u16, level: u8 },
    Question,
    Colon,
    DoubleColon,
    Opening,
    Closing,
    OpeningBracket,
    ClosingBracket,
    OpeningBrace,
    ClosingBrace,
    Comma,
    Semicolon,
    Dot,
    Equals,
    Let,
    In,
    Frequency(Freq),
    Mdl,
    Import,
    Using,
    Module,
    Export,
    Struct,
    Enum,
    Annotation,
    LeftOut(&'static str),
    Unused,
}

/// The sort of a word.
pub fn sort_of(kind: &Kind) -> Sort<'_>
    ensures { sort_view result ≡ machine_sort kind.now }
{
    match kind {
        Kind::Word(text) => Sort::Identifier(text),
        Kind::Reserved(number) => reserved_sort(*number),
        Kind::Mark(number) => mark_sort(*number),
        Kind::Int(value) => Sort::Integer(*value),
        Kind::Real { text, double } => Sort::Real {
            text,
            double: *double,
        },
        Kind::Str(text) => Sort::Str(text),
    }
}

fn mark_sort(number: u16) -> Sort<'static>
    ensures { sort_view result ≡ mark_sort (sort_among mark_number mark_sorts number) number }
{
    if let Some(sort) = known_mark(number) {
        return sort;
    }
    match (is_unary(number), binary_level(number)) {
        (true, Some(level)) => Sort::EitherOperator { op: number, level },
        (true, None) => Sort::UnaryOperator(number),
        (false, Some(level)) => Sort::BinaryOperator { op: number, level },
        (false, None) => match left_out_mark(number) {
            Some(text) => Sort::LeftOut(text),
            None => Sort::Unused,
        },
    }
}

fn reserved_sort(number: u16) -> Sort<'static>
    ensures { sort_view result ≡ reserved_sort (sort_among reserved_number reserved_sorts number) number }
{
    if let Some(sort) = known_reserved(number) {
        return sort;
    }
    if is_type_word(number) {
        return Sort::TypeWord(number);
    }
    match left_out_reserved(number) {
        Some(text) => Sort::LeftOut(text),
        None => Sort::Unused,
    }
}

fn known_mark(number: u16) -> Option<Sort<'static>>
    ensures { known_view result ≡ sort_among mark_number mark_sorts number }
{
    match number {
        mark::QUESTION => Some(Sort::Question),
        mark::COLON => Some(Sort::Colon),
        mark::DOUBLE_COLON => Some(Sort::DoubleColon),
        mark::OPEN_PARENTHESIS => Some(Sort::Opening),
        mark::CLOSE_PARENTHESIS => Some(Sort::Closing),
        mark::OPEN_BRACKET => Some(Sort::OpeningBracket),
        mark::CLOSE_BRACKET => Some(Sort::ClosingBracket),
        mark::OPEN_BRACE => Some(Sort::OpeningBrace),
        mark::CLOSE_BRACE => Some(Sort::ClosingBrace),
        mark::COMMA => Some(Sort::Comma),
        mark::SEMICOLON => Some(Sort::Semicolon),
        mark::DOT => Some(Sort::Dot),
        mark::EQUAL => Some(Sort::Equals),
        _ => None,
    }
}

fn known_reserved(number: u16) -> Option<Sort<'static>>
    ensures { known_view result ≡ sort_among reserved_number reserved_sorts number }
{
    match number {
        reserved::TRUE => Some(Sort::Bool(true)),
        reserved::FALSE => Some(Sort::Bool(false)),
        reserved::LET => Some(Sort::Let),
        reserved::IN => Some(Sort::In),
        reserved::UNIFORM => Some(Sort::Frequency(Freq::Uniform)),
        reserved::VARYING => Some(Sort::Frequency(Freq::Varying)),
        reserved::MDL => Some(Sort::Mdl),
        reserved::IMPORT => Some(Sort::Import),
        reserved::USING => Some(Sort::Using),
        reserved::MODULE => Some(Sort::Module),
        reserved::EXPORT => Some(Sort::Export),
        reserved::STRUCT => Some(Sort::Struct),
        reserved::ENUM => Some(Sort::Enum),
        reserved::ANNOTATION => Some(Sort::Annotation),
        _ => None,
    }
}

fn is_unary(number: u16) -> bool
    ensures { result ≡ is_unary_operator number }
{
    matches!(number, mark::PLUS | mark::MINUS | mark::TILDE | mark::NOT)
}

/// The level of an operator between two operands.
fn binary_level(number: u16) -> Option<u8>
    ensures { result ≡ level_of number }
{
    match number {
        mark::OR_OR => Some(2),
        mark::AND_AND => Some(3),
        mark::OR => Some(4),
        mark::CARET => Some(5),
        mark::AND => Some(6),
        mark::EQUAL_EQUAL => Some(7),
        mark::NOT_EQUAL => Some(7),
        mark::LESS => Some(8),
        mark::LESS_EQUAL => Some(8),
        mark::GREATER => Some(8),
        mark::GREATER_EQUAL => Some(8),
        mark::SHIFT_LEFT => Some(9),
        mark::SHIFT_RIGHT => Some(9),
        mark::SHIFT_RIGHT_UNSIGNED => Some(9),
        mark::PLUS => Some(10),
        mark::MINUS => Some(10),
        mark::STAR => Some(11),
        mark::SLASH => Some(11),
        mark::PERCENT => Some(11),
        _ => None,
    }
}

/// Whether a reserved word names a type.
fn is_type_word(number: u16) -> bool
    ensures { result ≡ names_type number }
{
    matches!(
        number,
        reserved::BOOL
            | reserved::BOOL2
            | reserved::BOOL3
            | reserved::BOOL4
            | reserved::INT
            | reserved::INT2
            | reserved::INT3
            | reserved::INT4
            | reserved::FLOAT
            | reserved::FLOAT2
            | reserved::FLOAT3
            | reserved::FLOAT4
            | reserved::FLOAT2X2
            | reserved::FLOAT3X3
            | reserved::FLOAT4X4
            | reserved::DOUBLE
            | reserved::DOUBLE2
            | reserved::DOUBLE3
            | reserved::DOUBLE4
            | reserved::COLOR
            | reserved::STRING
            | reserved::TEXTURE_2D
            | reserved::TEXTURE_3D
            | reserved::TEXTURE_CUBE
            | reserved::TEXTURE_PTEX
            | reserved::LIGHT_PROFILE
            | reserved::BSDF_MEASUREMENT
            | reserved::BSDF
            | reserved::EDF
            | reserved::VDF
            | reserved::HAIR_BSDF
            | reserved::MATERIAL
    )
}

/// The text of a reserved word that no form has.
fn left_out_reserved(number: u16) -> Option<&'static str>
    ensures { MatchOption result (text_in reserved_left_out number ≡ None)
        (λ text. text_in reserved_left_out number ≡ Some text.now) }
{
    match number {
        reserved::BREAK => Some("break"),
        reserved::CASE => Some("case"),
        reserved::CAST => Some("cast"),
        reserved::CONST => Some("const"),
        reserved::CONTINUE => Some("continue"),
        reserved::DEFAULT => Some("default"),
        reserved::DO => Some("do"),
        reserved::DOUBLE2X2 => Some("double2x2"),
        reserved::DOUBLE2X3 => Some("double2x3"),
        reserved::DOUBLE2X4 => Some("double2x4"),
        reserved::DOUBLE3X2 => Some("double3x2"),
        reserved::DOUBLE3X3 => Some("double3x3"),
        reserved::DOUBLE3X4 => Some("double3x4"),
        reserved::DOUBLE4X2 => Some("double4x2"),
        reserved::DOUBLE4X3 => Some("double4x3"),
        reserved::DOUBLE4X4 => Some("double4x4"),
        reserved::ELSE => Some("else"),
        reserved::FLOAT2X3 => Some("float2x3"),
        reserved::FLOAT2X4 => Some("float2x4"),
        reserved::FLOAT3X2 => Some("float3x2"),
        reserved::FLOAT3X4 => Some("float3x4"),
        reserved::FLOAT4X2 => Some("float4x2"),
        reserved::FLOAT4X3 => Some("float4x3"),
        reserved::FOR => Some("for"),
        reserved::IF => Some("if"),
        reserved::RETURN => Some("return"),
        reserved::SWITCH => Some("switch"),
        reserved::TYPEDEF => Some("typedef"),
        reserved::WHILE => Some("while"),
        _ => None,
    }
}

/// The text of a mark that no form has.
fn left_out_mark(number: u16) -> Option<&'static str>
    ensures { MatchOption result (text_in marks_left_out number ≡ None)
        (λ text. text_in marks_left_out number ≡ Some text.now) }
{
    match number {
        mark::PERCENT_EQUAL => Some("%="),
        mark::AND_EQUAL => Some("&="),
        mark::STAR_EQUAL => Some("*="),
        mark::PLUS_PLUS => Some("++"),
        mark::PLUS_EQUAL => Some("+="),
        mark::MINUS_MINUS => Some("--"),
        mark::MINUS_EQUAL => Some("-="),
        mark::SLASH_EQUAL => Some("/="),
        mark::SHIFT_LEFT_EQUAL => Some("<<="),
        mark::SHIFT_RIGHT_EQUAL => Some(">>="),
        mark::SHIFT_RIGHT_UNSIGNED_EQUAL => Some(">>>="),
        mark::CARET_EQUAL => Some("^="),
        mark::OR_EQUAL => Some("|="),
        _ => None,
    }
}
