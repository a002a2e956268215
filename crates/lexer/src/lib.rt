// A sheet's text cut into lines and words, each with its place, the number of the byte at which it begins.
#![tactic(auto)]

ghost use Rattle.std.specs.Prelude.{◌≡◌, ◌+◌, ◌^◌, ◌<◌, [], length, take, drop, option_copied};
ghost use Rattle.std.specs.Str.{bytes_eq};
ghost use Rattle.lexer.specs.declared.Declined.TheVariants.{Fault as Faulty, Memory};
ghost use Rattle.lexer.specs.Laws.{PrintableTexts};
ghost use Rattle.lexer.specs.Text.{glyphs, is_word, body_of, Lexes, Words, is, is_only, word_of, word_at, words_of, line_of, number_of, row_of};

mod pieces;

use pieces::Piece;
use std::alloc::{AllocError, AllocFailed, Global};
use thiserror::Error;

const LF: u8 = 10;

const SPACE: u8 = 32;

const LONGEST: usize = 8192;

// What a reading is declined for, each by its number in the table of refusals.
#[derive(Clone, Copy, Debug, PartialEq, Eq)]
pub enum Rule {
    Size = 1,
    Spacing = 2,
    Line = 3,
    Count = 4,
    NewName = 5,
    Word = 6,
    Length = 7,
    Variable = 8,
    Value = 9,
    Twice = 10,
    Back = 11,
}

// The row of the table of refusals in which a rule stands.
#[derive(Clone, Copy, Debug, PartialEq, Eq)]
pub enum Row {
    Bytes,
    Lines,
    Words,
    Terms,
    Sheet,
}

impl Rule {
    // The refusal's number.
    pub fn number(self) -> u8
        ensures { result ≡ number_of self }
    {
        self as u8
    }

    // That it is broken at a place.
    pub fn at(self, place: usize) -> Declined
        ensures { result ≡ Faulty (record { rule = self; place = place }) }
    {
        Declined::Fault(Fault { rule: self, place })
    }

    // The row of the table in which it stands.
    pub fn row(self) -> Row
        ensures { result ≡ row_of self }
    {
        match self {
            Rule::Size | Rule::Spacing => Row::Bytes,
            Rule::Line | Rule::Count => Row::Lines,
            Rule::NewName | Rule::Word => Row::Words,
            Rule::Length | Rule::Variable => Row::Terms,
            Rule::Value | Rule::Twice | Rule::Back => Row::Sheet,
        }
    }
}

// A rule that is broken, and where.
#[derive(Clone, Copy, Debug, PartialEq, Eq, Error)]
#[error("{} at {place}", .rule.number())]
pub struct Fault {
    pub rule: Rule,
    pub place: usize,
}

// Why nothing is read: a rule is broken, or memory is wanting, which comes only by way of `?` from calls that allocate.
#[derive(Clone, Copy, Debug, PartialEq, Eq, Error)]
pub enum Declined {
    #[error("fault {0}")]
    Fault(Fault),
    #[error("out of memory")]
    Memory,
}

// These two are by hand, since what a derive writes has no `from_gives`, which says what `?` makes.
impl From<AllocError> for Declined {
    ghost from_gives = { λ _ r. r ≡ Memory };

    fn from(_e: AllocError) -> Declined {
        Declined::Memory
    }
}

impl<T: Drop> From<AllocFailed<T>> for Declined {
    ghost from_gives = { λ _ r. r ≡ Memory };

    fn from(_e: AllocFailed<T>) -> Declined {
        Declined::Memory
    }
}

// A word, and the number of its first byte in the text.
#[derive(Clone, Copy)]
pub struct Word<'a> {
    pub place: usize,
    pub text: &'a [u8],
}

// A line with its words.
#[derive(Drop)]
pub struct Line<'a> {
    pub place: usize,
    pub text: &'a [u8],
    pub words: Vec<Word<'a>>,
}

impl<'a> Word<'a> {
    // Whether it is this word. A method, since `==` compares values of one type alone.
    pub fn is(self, text: &[u8]) -> bool
        ensures { result ≡ bytes_eq self.entry.text.now text.now }
    {
        self.text == text
    }

    // That a rule is broken at this word.
    pub fn fault(self, rule: Rule) -> Declined
        ensures { result ≡ Faulty (record { rule = rule; place = self.entry.place }) }
    {
        rule.at(self.place)
    }
}

impl<'a> Line<'a> {
    // That a rule is broken at this line.
    pub fn fault(&self, rule: Rule) -> Declined
        ensures { result ≡ Faulty (record { rule = rule; place = self.now.place }) }
    {
        self.start().fault(rule)
    }

    // The empty word at its beginning.
    fn start(&self) -> Word<'a>
        ensures { word_of result ≡ record { place = self.now.place; text = [] } }
    {
        Word {
            place: self.place,
            text: b"",
        }
    }

    // How many words it has.
    pub fn len(&self) -> usize
        ensures { result ≡ length (line_of self.now).words }
    {
        self.words.len()
    }

    // The word at `i`; where the line has none, an empty word at its beginning.
    pub fn word(&self, i: usize) -> Word<'a>
        ensures { word_of result ≡ word_at (line_of self.now) i }
    {
        self.words.get(i).copied().unwrap_or(self.start())
    }

    // The words from `i` on.
    pub fn from(&self, i: usize) -> &[Word<'a>]
        ensures { words_of result.now ≡ drop i (line_of self.now).words }
    {
        self.words.get(i..).unwrap_or_default()
    }

    // At most so many words from `i` on.
    #[tactic(auto, using(crate::proofs::Lines::words_up_to))]
    pub fn slice(&self, i: usize, most: usize) -> &[Word<'a>]
        ensures { words_of result.now ≡ take most (drop i (line_of self.now).words) }
    {
        let words = self.from(i);
        words.get(..most).unwrap_or(words)
    }

    // Whether the line has a word at `i`, and it is this one.
    pub fn is(&self, i: usize, text: &[u8]) -> bool
        ensures { result ≡ is (line_of self.now) i text.now }
    {
        self.words.get(i).is_some_and(|word| word.is(text))
    }

    // Whether the line is this one word.
    pub fn is_only(&self, text: &[u8]) -> bool
        ensures { result ≡ is_only (line_of self.now) text.now }
    {
        self.len() == 1 && self.is(0, text)
    }
}

// Nothing but glyphs, the visible bytes.
fn are_glyphs(text: &[u8]) -> bool
    ensures { result ≡ glyphs text.now }
{
    text.iter().all(|b| matches!(b, 33..=126))
}

// One glyph or more, and nothing else.
fn is_word(text: &[u8]) -> bool
    ensures { result ≡ is_word text.now }
{
    !text.is_empty() && are_glyphs(text)
}

// The words of a line, parted by one space.
#[tactic(auto, using(crate::proofs::Sofar::texts_placed))]
fn read_words<'a>(heap: Global, line: Piece<'a>) -> Result<Vec<Word<'a>>, Declined>
    ensures { Words line.entry.place line.entry.text.now result }
{
    let mut words = Vec::new(heap);
    for Piece { place, text } in line.split(SPACE) {
        if !is_word(text) {
            return Err(Rule::Spacing.at(line.place));
        }
        words.push(Word { place, text })?;
    }
    Ok(words)
}

// A text without the LF that ends it, where the text is of 1 to 8192 bytes.
fn body_of(text: &[u8]) -> Option<&[u8]>
    ensures { option_copied result ≡ body_of text.now }
{
    match text {
        [body @ .., LF] if text.len() <= LONGEST => Some(body),
        _ => None,
    }
}

// The lines of a text with their words, or the first rule of bytes that it breaks.
#[tactic(auto, using(crate::proofs::Sofar::lines_of_placed))]
pub fn read_lines<'a>(heap: Global, text: &'a [u8]) -> Result<Vec<Line<'a>>, Declined>
    ensures { Lexes text.now result }
{
    let body = body_of(text).ok_or(Rule::Size.at(0))?;
    let mut lines = Vec::new(heap);
    for line in Piece::whole(body).split(LF) {
        let words = read_words(heap, line)?;
        lines.push(Line {
            place: line.place,
            text: line.text,
            words,
        })?;
    }
    Ok(lines)
}

// A text that has lines is printable: 1 to 8,192 bytes, each of a line or its end.
#[tactic(auto, using(crate::proofs::Shown::printable))]
pub fn texts_are_printable()
    ensures { PrintableTexts }
{}
