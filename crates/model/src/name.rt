// Names, and which words are names.
ghost use Rattle.std.specs.Prelude.{◌≡◌, ◌≤◌, length, take};
ghost use Rattle.model.specs.Names.{alphanumeric, begins_with_letter, is_name, letters, spelled};
ghost use Rattle.std.specs.List.{list_any};
ghost use Rattle.std.specs.Str.{bytes_eq};

use short_bytes::ShortBytes;
use std::fmt;

// The words of the format, which are no names.
const RESERVED: [&[u8]; 28] = [
    b"agents", b"texts", b"roles", b"nonces", b"known", b"claim", b"ranks", b"agent", b"enemy",
    b"text", b"role", b"var", b"fresh", b"send", b"recv", b"sig", b"nonce", b"know", b"holds",
    b"needs", b"free", b"rank", b"seal", b"mark", b"self", b"pair", b"key", b"back",
];

// The name of something on a sheet: at most eight letters or digits. Its field has the model, so it needs none.
#[derive(Clone, Copy, Debug, PartialEq, Eq)]
pub struct Name {
    letters: ShortBytes<8>,
}

impl Name {
    // A name of these letters; what is past the eighth is left out.
    pub fn new(text: &[u8]) -> Name
        ensures { letters result ≡ take 8 text.now }
    {
        Name {
            letters: ShortBytes::front_of(text),
        }
    }

    // Its letters.
    pub fn as_bytes(&self) -> &[u8]
        ensures letters { result.now ≡ letters self.now }
        ensures few { length result.now ≤ 8 }
    {
        self.letters.as_bytes()
    }

    // Whether it is this word. A method, since `==` compares values of one type alone.
    pub fn is(&self, word: &[u8]) -> bool
        ensures { result ≡ bytes_eq (letters self.now) word.now }
    {
        self.as_bytes() == word
    }
}

// It promises no text: that the letters are ASCII holds of the names that a sheet has, and not of each.
impl fmt::Display for Name {
    fn fmt<W: fmt::Write>(&self, f: &mut fmt::Formatter<W>) -> fmt::Result {
        for letter in self.as_bytes() {
            f.write_char(char::from(*letter))?;
        }
        Ok(())
    }
}

// Whether the word has the form of a name: 1 to 8 letters or digits, a letter first, and no word of the format.
pub fn is_name(word: &[u8]) -> bool
    ensures { result ≡ is_name word.now }
{
    is_spelled(word) && !is_among(&RESERVED, word)
}

// 1 to 8 letters or digits, a letter first.
fn is_spelled(word: &[u8]) -> bool
    ensures { result ≡ spelled word.now }
{
    is_alphanumeric(word) && begins_with_letter(word) && word.len() <= 8
}

fn is_alphanumeric(word: &[u8]) -> bool
    ensures { result ≡ alphanumeric word.now }
{
    word.iter().all(u8::is_ascii_alphanumeric)
}

fn begins_with_letter(word: &[u8]) -> bool
    ensures { result ≡ begins_with_letter word.now }
{
    word.first().is_some_and(u8::is_ascii_alphabetic)
}

// Whether the word is among these.
fn is_among(words: &[&[u8]], word: &[u8]) -> bool
    ensures { result ≡ list_any (λ w. bytes_eq w.now word.now) words.now }
{
    words.iter().any(|other| *other == word)
}
