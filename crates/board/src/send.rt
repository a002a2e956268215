// Sending.
ghost use Rattle.board.specs.Sends.{Sends};

use super::board::Board;
use super::refusal::{Move, Refusal};
use super::steps::next_message;
use medium::Medium;
use message::Message;

impl Board<'_, '_, '_> {
    // What `send` does.
    pub(super) fn try_send<M: Medium>(
        &mut self,
        number: usize,
        medium: &mut M,
    ) -> Result<Message, Refusal>
        ensures { Sends M.meaning M.steps number self.old medium.old self.new medium.new result }
    {
        let session = self
            .sessions
            .get(number)
            .ok_or(Refusal::NoSession(Move::Send))?;
        let message = next_message(self.sheet, &session).ok_or(Refusal::OtherStep(Move::Send))?;
        medium.take(message.as_bytes())?;
        self.put(number, session.moved());
        Ok(message)
    }
}
