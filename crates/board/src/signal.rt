// Signalling.
ghost use Rattle.board.specs.Signals.{Signals};

use super::board::Board;
use super::refusal::{Move, Refusal};
use super::steps::next_event;

impl Board<'_, '_, '_> {
    // What `signal` does.
    pub(super) fn try_signal(&mut self, number: usize) -> Result<(), Refusal>
        ensures { Signals number self.old self.new result }
    {
        let session = self
            .sessions
            .get(number)
            .ok_or(Refusal::NoSession(Move::Signal))?;
        let event = next_event(self.sheet, &session).ok_or(Refusal::OtherStep(Move::Signal))?;
        self.log.push(event)?;
        self.sessions.set(number, session.moved());
        Ok(())
    }
}
