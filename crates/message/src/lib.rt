// Messages: their byte form read, taken apart, built, compared and told in words; and what the enemy can make of them.
#![tactic(auto)]

ghost use Rattle.std.specs.Prelude.{◌≡◌, ℕ};
ghost use Rattle.message.specs.Laws.{BuildingSuffices, PartsAreMessages, ReadBack, TellingWords, UniqueReading};

mod buffer;
mod read;
mod tell;

pub use buffer::Message;
pub use read::{Front, Parts, is_message, read_front, same_message, take_apart};
use short_bytes::Full;
use std::num::TryFromIntError;
pub use tell::{WordsError, words};
use thiserror::Error;

// The kinds of numbered atoms.
#[derive(Clone, Copy, PartialEq, Eq, Debug)]
pub enum Kind {
    Agent,
    Nonce,
    Text,
}

// An agent, a nonce or a text, by its number.
#[derive(Clone, Copy, PartialEq, Eq, Debug)]
pub enum Atom {
    Agent(u8),
    Nonce(u16),
    Text(u16),
}

// No message has more bytes.
pub const MOST: usize = 96;

// Why a call is declined: what it was given is no message.
#[derive(Clone, Copy, PartialEq, Eq, Debug, Error)]
#[error("refusal {}", self.number())]
pub struct NotMessage;

impl NotMessage {
    // The refusal's number.
    pub fn number(self) -> u8
        ensures { result ≡ 43 }
    {
        43
    }
}

// These two are by hand, since a derived conversion would keep its source, and `NotMessage` holds nothing.
impl From<Full> for NotMessage {
    fn from(_: Full) -> NotMessage {
        NotMessage
    }
}

impl From<TryFromIntError> for NotMessage {
    fn from(_: TryFromIntError) -> NotMessage {
        NotMessage
    }
}

// Bytes are the form of at most one tree, and a form at the front determines the rest.
#[tactic(auto, using(crate::proofs::Shapes::unique))]
pub fn reading_is_unique()
    ensures { UniqueReading }
{}

// Every tree in range, within 96 bytes, is read back from its form.
#[tactic(auto, using(crate::proofs::Whole::read_back))]
pub fn forms_are_read_back()
    ensures { ReadBack }
{}

// The parts of a message are messages.
pub fn parts_are_messages()
    ensures { PartsAreMessages }
{}

// What is generated from a set that taking apart does not leave is built by pairing and sealing alone.
#[tactic(auto, using(crate::proofs::Closure::suffices))]
pub fn building_suffices()
    ensures { BuildingSuffices }
{}

// The words tell messages apart.
#[tactic(auto, using(crate::proofs::Sayings::same_words))]
pub fn words_tell_apart()
    ensures { TellingWords }
{}
