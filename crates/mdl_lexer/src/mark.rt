//! The numbers of the marks, as the tables give them.

// Marks that a form of the language has.
pub const NOT: u16 = 200;

pub const NOT_EQUAL: u16 = 201;

pub const PERCENT: u16 = 202;

pub const AND: u16 = 203;

pub const AND_AND: u16 = 204;

pub const OPEN_PARENTHESIS: u16 = 205;

pub const CLOSE_PARENTHESIS: u16 = 206;

pub const STAR: u16 = 207;

pub const PLUS: u16 = 208;

pub const COMMA: u16 = 209;

pub const MINUS: u16 = 210;

pub const DOT: u16 = 211;

pub const SLASH: u16 = 212;

pub const COLON: u16 = 213;

pub const DOUBLE_COLON: u16 = 214;

pub const SEMICOLON: u16 = 215;

pub const LESS: u16 = 216;

pub const SHIFT_LEFT: u16 = 217;

pub const LESS_EQUAL: u16 = 218;

pub const EQUAL: u16 = 219;

pub const EQUAL_EQUAL: u16 = 220;

pub const GREATER: u16 = 221;

pub const GREATER_EQUAL: u16 = 222;

pub const SHIFT_RIGHT: u16 = 223;

pub const SHIFT_RIGHT_UNSIGNED: u16 = 224;

pub const QUESTION: u16 = 225;

pub const OPEN_BRACKET: u16 = 226;

pub const CLOSE_BRACKET: u16 = 227;

pub const CARET: u16 = 228;

pub const OPEN_BRACE: u16 = 229;

pub const OR: u16 = 230;

pub const OR_OR: u16 = 231;

pub const CLOSE_BRACE: u16 = 232;

pub const TILDE: u16 = 233;

// Marks that no form has.
pub const PERCENT_EQUAL: u16 = 300;

pub const AND_EQUAL: u16 = 301;

pub const STAR_EQUAL: u16 = 302;

pub const PLUS_PLUS: u16 = 303;

pub const PLUS_EQUAL: u16 = 304;

pub const MINUS_MINUS: u16 = 305;

pub const MINUS_EQUAL: u16 = 306;

pub const SLASH_EQUAL: u16 = 307;

pub const SHIFT_LEFT_EQUAL: u16 = 308;

pub const SHIFT_RIGHT_EQUAL: u16 = 309;

pub const SHIFT_RIGHT_UNSIGNED_EQUAL: u16 = 310;

pub const CARET_EQUAL: u16 = 311;

pub const OR_EQUAL: u16 = 312;
