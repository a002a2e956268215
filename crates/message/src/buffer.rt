// The buffer in which a message is built, and its constructors. They are called in prefix order, as the words of a message
// are read: a pair before its halves, a seal before its content.
ghost use Rattle.std.specs.Prelude.{◌≡◌, ◌<◌, ◌≤◌, length, min, max, [], ◌∷◌, MatchResult};
ghost use Rattle.message.specs.Building.{Adds};
ghost use Rattle.message.specs.Message.{key, key_bytes, key_of, single, size, two_bytes, wire};

use super::{Atom, Kind, MOST, NotMessage};
use short_bytes::ShortBytes;
use std::marker::Model;

// A message as far as it is written, in at most 96 bytes.
#[derive(Clone, Copy)]
pub struct Message {
    bytes: ShortBytes<MOST>,
}

// The owners of a key as bytes, the lesser or equal one first.
fn owners(a: u16, b: u16) -> Result<[u8; 2], NotMessage>
    ensures { MatchResult result (λ pair. (a < size Kind.Agent) × (b < size Kind.Agent) × (pair ≡ min a b ∷ max a b ∷ [])) (λ _. (a < size Kind.Agent) × (b < size Kind.Agent) → ⊥) }
{
    Ok([u8::try_from(a.min(b))?, u8::try_from(a.max(b))?])
}

// Clauses see what is written so far.
impl Model for Message {
    ghost use Rattle.std.specs.Prelude.{List, ℕ};

    ghost Value = { List ℕ };

    ghost view = { λ m. m.bytes };

    ghost inverse = { λ written. record { bytes = written } };
}

impl Message {
    // Nothing is written yet.
    pub fn new() -> Message
        ensures { result ≡ [] }
    {
        Message {
            bytes: ShortBytes::new(),
        }
    }

    // What is written so far.
    pub fn as_bytes(&self) -> &[u8]
        ensures bytes { result.now ≡ self.now }
        ensures few { length result.now ≤ 96 }
    {
        self.bytes.as_bytes()
    }

    // An agent, a nonce or a text.
    pub fn atom(&mut self, atom: Atom) -> Result<(), NotMessage>
        ensures { Adds (Unit {0}) (wire (single atom)) self.old self.new result }
    {
        match atom {
            Atom::Agent(number) => self.append(&[b'A', number]),
            Atom::Nonce(number) => self.append_numbered(b'N', number),
            Atom::Text(number) => self.append_numbered(b'T', number),
        }
    }

    // The key of two agents, given in either order.
    pub fn key(&mut self, a: u16, b: u16) -> Result<(), NotMessage>
        ensures { Adds ((a < size Kind.Agent) × (b < size Kind.Agent)) (wire (key (key_of a b))) self.old self.new result }
    {
        let [lesser, greater] = owners(a, b)?;
        self.append(&[b'K', lesser, greater])
    }

    // The start of a pair: its two halves follow.
    pub fn pair(&mut self) -> Result<(), NotMessage>
        ensures { Adds (Unit {0}) (80 ∷ []) self.old self.new result }
    {
        self.append(b"P")
    }

    // The start of a seal under the key of two agents: its content follows.
    pub fn seal(&mut self, a: u16, b: u16) -> Result<(), NotMessage>
        ensures { Adds ((a < size Kind.Agent) × (b < size Kind.Agent)) (69 ∷ key_bytes (key_of a b)) self.old self.new result }
    {
        let [lesser, greater] = owners(a, b)?;
        self.append(&[b'E', b'K', lesser, greater])
    }

    // A letter, and a number in two bytes.
    fn append_numbered(&mut self, letter: u8, number: u16) -> Result<(), NotMessage>
        ensures { Adds (Unit {0}) (letter ∷ two_bytes number) self.old self.new result }
    {
        let [high, low] = number.to_be_bytes();
        self.append(&[letter, high, low])
    }

    fn append(&mut self, piece: &[u8]) -> Result<(), NotMessage>
        ensures { Adds (Unit {0}) piece.now self.old self.new result }
    {
        self.bytes.append(piece)?;
        Ok(())
    }
}
