// A message in words.
ghost use Rattle.std.specs.Prelude.{◌≡◌, string_bytes};
ghost use Rattle.message.specs.declared.tell.WordsError.TheVariants.{NoMemory, NoMessage};
ghost use Rattle.message.specs.Telling.{Pushes, SealPushes, Tells};

use super::NotMessage;
use super::read::{Parts, take_apart};
use std::alloc::{AllocError, Global};
use std::fmt;
use thiserror::Error;

// Why no words are told. Want of memory comes only by way of `?`, from the calls that extend the text.
#[derive(Clone, Copy, PartialEq, Eq, Debug, Error)]
pub enum WordsError {
    #[error("{}", NotMessage)]
    NoMessage,
    #[error("out of memory")]
    NoMemory,
}

// These three are by hand, since what a derive writes has no `from_gives`, which says what `?` makes.
impl From<NotMessage> for WordsError {
    ghost from_gives = { λ _ r. r ≡ NoMessage };

    fn from(_: NotMessage) -> WordsError {
        WordsError::NoMessage
    }
}

impl From<AllocError> for WordsError {
    ghost from_gives = { λ _ r. r ≡ NoMemory };

    fn from(_: AllocError) -> WordsError {
        WordsError::NoMemory
    }
}

impl From<fmt::Error> for WordsError {
    ghost from_gives = { λ _ r. r ≡ NoMemory };

    fn from(_: fmt::Error) -> WordsError {
        WordsError::NoMemory
    }
}

// The words of the message that the bytes are, as `seal 0 1 nonce 258`.
pub fn words(heap: Global, bytes: &[u8]) -> Result<String, WordsError>
    ensures { Tells bytes.now result }
{
    let mut text = String::new(heap);
    push_words(&mut text, bytes)?;
    Ok(text)
}

// Puts the words of a message behind the text. It calls itself for the parts, of which a message has few.
// No Display says this: it fails only where its writer does, while bytes may be no message.
fn push_words(text: &mut String, bytes: &[u8]) -> Result<(), WordsError>
    ensures { Pushes bytes.now (string_bytes text.old) (string_bytes text.new) result }
{
    match take_apart(bytes)? {
        Parts::Agent(number) => write!(text, "agent {number}")?,
        Parts::Nonce(number) => write!(text, "nonce {number}")?,
        Parts::Text(number) => write!(text, "text {number}")?,
        Parts::Key(a, b) => write!(text, "key {a} {b}")?,
        Parts::Pair { first, second } => {
            text.push_str("pair ")?;
            push_words(text, first)?;
            text.push_str(" ")?;
            push_words(text, second)?;
        }
        Parts::Seal { key, content } => {
            push_seal(text, key)?;
            push_words(text, content)?;
        }
    }
    Ok(())
}

// Puts the words before a seal's content behind the text, from the bytes of its key.
#[tactic(auto, using(crate::proofs::Spoken::seal_words))]
fn push_seal(text: &mut String, key: &[u8]) -> Result<(), WordsError>
    ensures { SealPushes key.now (string_bytes text.old) (string_bytes text.new) result }
{
    let [_, a, b] = key else {
        return Err(WordsError::NoMessage);
    };
    write!(text, "seal {a} {b} ")?;
    Ok(())
}
