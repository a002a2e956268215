// What a medium is, and how it declines.
ghost use Rattle.std.specs.Prelude.{◌≡◌, MatchResult, Decides};
ghost use Rattle.medium.specs.Media.{Declines, Meaning, Offers, Sound, Takes};
ghost use Rattle.message.specs.Message.{Msg, Reads};

use thiserror::Error;

// The bytes are no message that there is space for.
#[derive(Clone, Copy, PartialEq, Eq, Debug, Error)]
#[error("refusal {}", self.number())]
pub struct NoSpace;

impl NoSpace {
    // The refusal's number.
    pub fn number(self) -> u8
        ensures { result ≡ 42 }
    {
        42
    }
}

// Whatever carries messages between sessions.
pub trait Medium {
    // What it means at this moment.
    ghost meaning: { Self → Meaning };

    // Everything offered is generated from its sheet's start knowledge and the heard.
    ghost sound: { (s : Self) → Sound (meaning s) };

    // What a taking does: at least that which every medium's does.
    ghost steps: { Self → Msg → Self → Type 0 };

    ghost stepped: { (s t : Self) (m : Msg) → steps s m t → Takes (meaning s) (meaning t) m };

    // Takes a message that there is space for.
    fn take(&mut self, bytes: &[u8]) -> Result<(), NoSpace>
        ensures { MatchResult result (λ _. (m : Msg) × Reads bytes.now m × steps self.old m self.new) (λ _. Declines (meaning self.old) bytes.now × (self.new ≡ self.old)) };

    // Whether the bytes are a message that it offers.
    fn offers(&self, bytes: &[u8]) -> bool
        ensures { Decides result (Offers (meaning self.now) bytes.now) };
}
