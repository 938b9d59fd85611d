//! The words of a module's text, with their places; and the tables of reserved words and marks.
#![tactic(auto)]

mod cursor;
mod lexer;
#[cfg(test)]
mod lexer_tests;
pub mod mark;
mod marks;
mod names;
mod numbers;
pub mod reserved;
mod separators;
mod strings;
mod token;
mod tokens;
mod word_tables;

pub use lexer::{lex, one_lexing, one_step};
pub use names::is_identifier;
pub use token::{Kind, LexFault, Token};
pub use word_tables::{
    marks_in_use, marks_left_out, numbers_are_apart, reserved_in_use, reserved_left_out,
};

#[cfg(test)]
mod tests {
    use super::{
        marks_in_use, marks_left_out, numbers_are_apart, reserved_in_use, reserved_left_out,
    };

    #[test]
    fn each_word_is_in_its_table(rt: HostRuntime) {
        numbers_are_apart();
        let tables = [
            reserved_in_use(),
            reserved_left_out(),
            marks_in_use(),
            marks_left_out(),
        ];
        let cases: [(&str, usize, u16); 9] = [
            ("annotation", 0, 0),
            ("vdf", 0, 45),
            ("break", 1, 100),
            ("while", 1, 128),
            ("!", 2, 200),
            ("::", 2, 214),
            ("~", 2, 233),
            ("%=", 3, 300),
            (">>>=", 3, 310),
        ];
        for (word, place, number) in cases {
            for (at, table) in tables.iter().enumerate() {
                let expected = if at == place { Some(number) } else { None };
                assert_eq!(rt; table.find(word.as_bytes()), expected);
            }
        }
    }
}
