// How many lines came to what.
ghost use Rattle.std.specs.Prelude.{◌≡◌};
ghost use Rattle.linkmsg.specs.Counting.{counted, none};

use super::explain::Unanswered;
use std::fmt;

// The lines so far, and how many of them came to each answer.
#[derive(Clone, Copy)]
pub struct Tally {
    pub lines: u64,
    pub messages: u64,
    pub refused: u64,
    pub unreadable: u64,
}

impl Tally {
    // Nothing is counted yet.
    pub fn new() -> Tally
        ensures { result ≡ none }
    {
        Tally {
            lines: 0,
            messages: 0,
            refused: 0,
            unreadable: 0,
        }
    }

    // Counts a line with what was said of it. One that memory was wanting for is not counted.
    pub fn count(&mut self, answer: &Result<String, Unanswered>)
        ensures { self.new ≡ counted self.old answer.now }
    {
        match answer {
            Ok(_) => self.messages = self.messages.saturating_add(1),
            Err(Unanswered::NotMessage) => self.refused = self.refused.saturating_add(1),
            Err(Unanswered::NotBytes) => self.unreadable = self.unreadable.saturating_add(1),
            Err(Unanswered::NoMemory) => return,
        }
        self.lines = self.lines.saturating_add(1);
    }
}

impl fmt::Display for Tally {
    fn fmt<W: fmt::Write>(&self, f: &mut fmt::Formatter<W>) -> fmt::Result {
        let Tally {
            lines,
            messages,
            refused,
            unreadable,
        } = *self;
        write!(
            f,
            "{lines} lines: {messages} messages, {refused} refused, {unreadable} unreadable"
        )
    }
}
