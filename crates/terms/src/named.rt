// Finding something by its name.
ghost use Rattle.std.specs.Prelude.{◌≡◌, ℕ, List, map};
ghost use Rattle.lexer.specs.Text.{WordAt, word_of};
ghost use Rattle.std.specs.Str.{bytes_eq};
ghost use Rattle.model.specs.Names.{index_of, letters};
ghost use Rattle.model.specs.Sheet as model;
ghost use Rattle.model.specs.Stored.{agent_of, nonce_of, role_of, variable_of};

use lexer::Word;
use model::{Agent, Name, Nonce, Role, Variable};

// What has a name.
pub trait Named {
    // What it stands for has the name, so that callers need not know how names are kept.
    ghost Meaning: { Type 0 };

    ghost name: { Meaning → List ℕ };

    ghost meaning: { Self → Meaning };

    fn is_named(&self, word: &[u8]) -> bool
        ensures { result ≡ bytes_eq (name (meaning self.now)) word.now };
}

// An impl for each type, since an impl may be written by no macro of the repository.
impl Named for Name {
    ghost Meaning = { List ℕ };

    ghost name = { λ name. name };

    ghost meaning = { letters };

    fn is_named(&self, word: &[u8]) -> bool {
        self.is(word)
    }
}

impl Named for Agent {
    ghost Meaning = { model.Agent };

    ghost name = { λ m. m.name };

    ghost meaning = { agent_of };

    fn is_named(&self, word: &[u8]) -> bool {
        self.name.is(word)
    }
}

impl Named for Variable {
    ghost Meaning = { model.Variable };

    ghost name = { λ m. m.name };

    ghost meaning = { variable_of };

    fn is_named(&self, word: &[u8]) -> bool {
        self.name.is(word)
    }
}

impl Named for Role {
    ghost Meaning = { model.Role };

    ghost name = { λ m. m.name };

    ghost meaning = { role_of };

    fn is_named(&self, word: &[u8]) -> bool {
        self.name.is(word)
    }
}

impl Named for Nonce {
    ghost Meaning = { model.Nonce };

    ghost name = { λ m. m.name };

    ghost meaning = { nonce_of };

    fn is_named(&self, word: &[u8]) -> bool {
        self.name.is(word)
    }
}

impl<'a> Named for Word<'a> {
    ghost Meaning = { WordAt };

    ghost name = { λ m. m.text };

    ghost meaning = { word_of };

    fn is_named(&self, text: &[u8]) -> bool {
        self.is(text)
    }
}

// The number of the first that has this name, counted from 0.
pub fn find<T: Named>(things: &[T], word: &[u8]) -> Option<usize>
    ensures { result ≡ index_of (map T.Named.name (map T.Named.meaning things.now)) word.now }
{
    things.iter().position(|thing| thing.is_named(word))
}
