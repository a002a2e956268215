// The calls of a board. What each does is proved where it is written; here it is shown to be one call of a rehearsal.
ghost use Rattle.std.specs.Prelude.{MatchResult};
ghost use Rattle.medium.specs.Media.{Offers};
ghost use Rattle.board.specs.Calls.{Called, CalledApart};
ghost use Rattle.board.specs.Deliveries.{Delivers};
ghost use Rattle.board.specs.Sends.{Sends};
ghost use Rattle.board.specs.Signals.{Signals};
ghost use Rattle.board.specs.Starts.{Starts};

use super::board::Board;
use super::refusal::Refusal;
use super::steps::is_read;
use medium::Medium;
use message::Message;
use sheet_laws::{counts_lie_in_range, signals_are_formed};

impl Board<'_, '_, '_> {
    // Starts a session in which the agent plays the role. The numbers are those of what the fresh and the chosen variables stand for, and 0 for
    // each other. It answers the session's number.
    pub fn start(&mut self, role: usize, agent: u8, values: [u16; 5]) -> Result<usize, Refusal>
        ensures starts { Starts role agent values self.old self.new result }
        ensures call { CalledApart self.old self.new }
    {
        counts_lie_in_range();
        is_read(self.sheet);
        self.try_start(role, agent, values)
    }

    // Logs the event that the session's next step signals, and moves the session on.
    pub fn signal(&mut self, number: usize) -> Result<(), Refusal>
        ensures signals { Signals number self.old self.new result }
        ensures call { CalledApart self.old self.new }
    {
        signals_are_formed();
        is_read(self.sheet);
        self.try_signal(number)
    }

    // Lets the medium take the message that the session's next step sends, and moves the session on. It answers the message.
    pub fn send<M: Medium>(&mut self, number: usize, medium: &mut M) -> Result<Message, Refusal>
        ensures sends { Sends M.meaning M.steps number self.old medium.old self.new medium.new result }
        ensures call { Called M.meaning self.old medium.old self.new medium.new }
    {
        self.try_send(number, medium)
    }

    // Lets the session receive bytes that the medium offers, which bind its variables, and moves it on.
    pub fn deliver<M: Medium>(
        &mut self,
        number: usize,
        medium: &M,
        bytes: &[u8],
    ) -> Result<(), Refusal>
        ensures delivers { Delivers number (M.meaning medium.now) bytes.now self.old self.new result }
        ensures offered { MatchResult result (λ _. Offers (M.meaning medium.now) bytes.now) (λ _. Unit {0}) }
        ensures call { Called M.meaning self.old medium.now self.new medium.now }
    {
        self.try_deliver(number, medium, bytes)
    }
}
