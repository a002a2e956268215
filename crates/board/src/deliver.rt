// Delivering.
ghost use Rattle.std.specs.Prelude.{◌≡◌, List, MatchOption, Option, map};
ghost use Rattle.message.specs.declared.Atom.{Atom};
ghost use Rattle.message.specs.Message.{Msg, Reads};
ghost use Rattle.model.specs.Stored.{role_of, term_of, variable_of};
ghost use Rattle.model.specs.Trees.{prefix};
ghost use Rattle.ranks.specs.PieceBytes.{PiecesOf};
ghost use Rattle.board.specs.Deliveries.{Delivers, Turns};
ghost use Rattle.board.specs.Matching.{matched};
ghost use Rattle.board.specs.Receiving.{Receives};

use super::board::Board;
use super::matching::{Bindings, Scope};
use super::records::Session;
use super::refusal::{Move, Refusal};
use super::steps::{Received, next_received};
use medium::Medium;
use message::Atom;
use ranks::{Piece, Pieces};
use sheet::Sheet;
use sheet_laws::names_refer;

impl Session {
    // The values of its variables once a message of these pieces is compared with the term, if it can be that message.
    fn bound(&self, received: Received, pieces: &[Piece]) -> Option<[Option<Atom>; 5]>
        ensures { result ≡ matched self.now.agent (map variable_of received.entry.role.now.variables.items) self.now.values (prefix (term_of received.entry.term.now)) pieces.now }
    {
        let scope = Scope {
            player: self.agent,
            variables: &received.role.variables,
        };
        let mut bindings = Bindings { slots: self.values };
        bindings.match_all(scope, received.term.nodes(), pieces)?;
        Some(bindings.slots)
    }

    // The values with which its next step receives the bytes.
    fn values_after(
        &self,
        sheet: &Sheet,
        received: Received,
        bytes: &[u8],
        pieces: &Pieces,
    ) -> Option<[Option<Atom>; 5]>
        requires receives { Receives sheet.now self.now (role_of received.role.now) (term_of received.term.now) }
        requires pieces { PiecesOf bytes.now (Some pieces.now) }
        ensures { MatchOption result ((m : Msg) (values : List (Option Atom)) → Reads bytes.now m → Turns sheet.now self.now values m → ⊥) (λ values. (m : Msg) → Reads bytes.now m → Turns sheet.now self.now values m) }
    {
        names_refer();
        self.bound(received, pieces.as_slice())
    }
}

impl Board<'_, '_, '_> {
    // What `deliver` does.
    pub(super) fn try_deliver<M: Medium>(
        &mut self,
        number: usize,
        medium: &M,
        bytes: &[u8],
    ) -> Result<(), Refusal>
        ensures { Delivers number (M.meaning medium.now) bytes.now self.old self.new result }
    {
        let session = self
            .sessions
            .get(number)
            .ok_or(Refusal::NoSession(Move::Deliver))?;
        let received = next_received(self.sheet, &session).ok_or(Refusal::OtherStep(
            Move::Deliver,
        ))?;
        let pieces = Pieces::of(bytes).ok_or(Refusal::NotMessage)?;
        if !medium.offers(bytes) {
            return Err(Refusal::NotOffered);
        }
        let values = session
            .values_after(self.sheet, received, bytes, &pieces)
            .ok_or(Refusal::NoMatch)?;
        self.put(number, session.moved_with(values));
        Ok(())
    }
}
