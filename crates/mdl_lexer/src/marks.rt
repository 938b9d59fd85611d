ghost use Rattle.std.specs.Prelude.{◌<◌, length, ◌≡◌, chars, IfSome};
ghost use Rattle.std.specs.Option.{option_map};
ghost use Rattle.mdl_lexer.specs.WordTables as words;
ghost use Rattle.mdl_lexer.specs.inside.Cutting.{IsRest};
ghost use Rattle.mdl_lexer.specs.inside.Classes.{characters_of, value_found};
ghost use Rattle.mdl_lexer.specs.inside.Tokens as tokens;
ghost use Rattle.mdl_lexer.specs.inside.Singles.{AreSingles, HasSingles};

use crate::cursor::{Class, before, first, skip_one};
use crate::word_tables::{marks_in_use, marks_left_out, number_in};
use case_table::Table;

/// The tables of marks.
#[derive(Drop)]
pub(crate) struct Marks {
    in_use: Table,
    left_out: Table,
    /// What the tables give each ASCII character alone, since most marks are of one.
    singles: [Option<u16>; 128],
}

fn singles(in_use: &Table, left_out: &Table) -> [Option<u16>; 128]
    ensures { AreSingles in_use.now left_out.now result }
{
    let mut singles = [None; 128];
    for i in 0..128 {
        singles[i] = number_in(in_use, left_out, &[i as u8]);
    }
    singles
}

impl Marks {
    pub(crate) fn new() -> Marks
        ensures in_use { result.in_use ≡ words.marks_in_use }
        ensures left_out { result.left_out ≡ words.marks_left_out }
        ensures singles { HasSingles result }
    {
        let (in_use, left_out) = (marks_in_use(), marks_left_out());
        let singles = singles(&in_use, &left_out);
        Marks {
            in_use,
            left_out,
            singles,
        }
    }

    /// The number of a mark, if it is one.
    fn number(&self, mark: &str) -> Option<u16>
        requires { HasSingles self.now }
        ensures { result ≡ tokens.number_in_either self.now.in_use self.now.left_out mark.now }
    {
        match mark.as_bytes() {
            [byte] if *byte < 128 => self.singles[*byte as usize],
            bytes => number_in(&self.in_use, &self.left_out, bytes),
        }
    }

    /// The mark that ends before a rest of the text, if there is such a rest.
    fn ending<'a>(&self, text: &str, rest: Option<&'a str>) -> Option<(u16, &'a str)>
        requires in_use { self.now.in_use ≡ words.marks_in_use }
        requires left_out { self.now.left_out ≡ words.marks_left_out }
        requires singles { HasSingles self.now }
        requires rest { IfSome rest (λ rest. IsRest text.now rest.now) }
        ensures value { option_map value_found result
            ≡ tokens.mark_to (chars text.now) (option_map characters_of rest.entry) }
        ensures shorter { IfSome result (λ found. length found.1.now < length text.now) }
        ensures rest { IfSome result (λ found. IsRest text.now found.1.now) }
    {
        let rest = rest?;
        let number = self.number(before(text, rest))?;
        Some((number, rest))
    }
}

/// What stands behind one more character that marks go on with.
#[tactic(auto, using(crate::proofs::CuttingLaws::rest_of_rest))]
fn one_more<'a>(text: &str, end: Option<&'a str>) -> Option<&'a str>
    requires { IfSome end (λ end. IsRest text.now end.now) }
    ensures value { option_map characters_of result ≡ tokens.one_more (option_map characters_of end.entry) }
    ensures rest { IfSome result (λ rest. IsRest text.now rest.now) }
{
    skip_one(end?, Class::Mark)
}

/// The longest mark at the front of a text, by its number, and what stands behind it.
#[tactic(auto, using(crate::proofs::CuttingLaws::rest_of_rest), unfolding(crate::specs::inside::Tokens::mark_in))]
pub(crate) fn mark_in<'a>(marks: &Marks, text: &'a str) -> Option<(u16, &'a str)>
    requires in_use { marks.now.in_use ≡ words.marks_in_use }
    requires left_out { marks.now.left_out ≡ words.marks_left_out }
    requires singles { HasSingles marks.now }
    ensures value { option_map value_found result ≡ tokens.mark_in (chars text.now) }
    ensures shorter { IfSome result (λ found. length found.1.now < length text.now) }
    ensures rest { IfSome result (λ found. IsRest text.now found.1.now) }
{
    let (_, one) = first(text)?;
    let Some(two) = skip_one(one, Class::Mark) else {
        return marks.ending(text, Some(one));
    };
    let three = one_more(text, Some(two));
    let four = one_more(text, three);
    if let Some(found) = marks.ending(text, four) {
        return Some(found);
    }
    if let Some(found) = marks.ending(text, three) {
        return Some(found);
    }
    if let Some(found) = marks.ending(text, Some(two)) {
        return Some(found);
    }
    marks.ending(text, Some(one))
}
