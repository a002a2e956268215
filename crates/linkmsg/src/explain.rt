// What is said of one line.
ghost use Rattle.std.specs.Prelude.{◌≡◌};
ghost use Rattle.linkmsg.specs.Explaining.{Explains, unread, untold};

use hex_text::HexError;
use message::{NotMessage, WordsError, words};
use std::alloc::Global;
use thiserror::Error;

// Why a line has no words: it is no bytes, its bytes are no message, or memory is wanting.
#[derive(Clone, Copy, PartialEq, Eq, Debug, Error)]
pub enum Unanswered {
    #[error("{}", HexError::NotBytes)]
    NotBytes,
    #[error("{}", NotMessage)]
    NotMessage,
    #[error("out of memory")]
    NoMemory,
}

// These two are by hand and not by thiserror, which does not say which error it makes.
impl From<HexError> for Unanswered {
    ghost from_gives = { λ error why. why ≡ unread error };

    fn from(error: HexError) -> Unanswered {
        match error {
            HexError::NotBytes => Unanswered::NotBytes,
            HexError::NoMemory => Unanswered::NoMemory,
        }
    }
}

impl From<WordsError> for Unanswered {
    ghost from_gives = { λ error why. why ≡ untold error };

    fn from(error: WordsError) -> Unanswered {
        match error {
            WordsError::NoMessage => Unanswered::NotMessage,
            WordsError::NoMemory => Unanswered::NoMemory,
        }
    }
}

// The words of the message whose bytes a line has in hexadecimal.
pub fn explain(heap: Global, line: &[u8]) -> Result<String, Unanswered>
    ensures { Explains line.now result }
{
    let bytes = hex_text::read(heap, line)?;
    Ok(words(heap, &bytes)?)
}
