// Starting a session.
ghost use Rattle.std.specs.Prelude.{◌≡◌};
ghost use Rattle.model.specs.Stored.{nonce_of, role_of};
ghost use Rattle.rehearsals.specs.Boards.{awaited};
ghost use Rattle.sheet.specs.Kept.{contents_of};
ghost use Rattle.std.specs.Option.{option_map};
ghost use Rattle.board.specs.Placing.{each};
ghost use Rattle.board.specs.Starts.{Starts, chosen, is_own, nothing, slot_of, to_start};

use super::board::Board;
use super::records::Session;
use super::refusal::Refusal;
use instances::atom_at;
use message::{Atom, Kind};
use model::{Nonce, Role, Sort};
use sheet::{Contents, Sheet};

// Whether the variable of this number is to be received: it is not fresh, and the first step where it stands receives.
fn is_awaited(role: &Role, variable: usize) -> bool
    ensures { result ≡ awaited (role_of role.now) variable }
{
    role.variables
        .get(variable)
        .is_some_and(|v| matches!(v.sort, Sort::Plain(_)))
        && role.is_received(variable)
}

// Whether a nonce has no name, or is named for this variable of the role where the agent plays it.
fn is_own(nonce: Option<&Nonce>, role: usize, agent: u8, variable: usize) -> bool
    ensures { result ≡ is_own role agent variable (option_map (λ n. nonce_of n.now) nonce.entry) }
{
    nonce.is_none_or(|n| n.is_for(role, usize::from(agent), variable))
}

// A variable that stands for nothing has the number 0.
fn nothing(number: u16) -> Option<Option<Atom>>
    ensures { result ≡ nothing number }
{
    (number == 0).then_some(None)
}

// An agent that is to play a role.
#[derive(Clone, Copy)]
struct Part<'a> {
    contents: &'a Contents,
    number: usize,
    role: &'a Role,
    agent: u8,
}

impl Part<'_> {
    // What a variable of this sort stands for.
    fn chosen(&self, variable: usize, sort: Sort, number: u16) -> Option<Option<Atom>>
        ensures { result ≡ chosen (contents_of self.now.contents.now) self.now.number self.now.agent variable sort number }
    {
        let number = usize::from(number);
        match sort {
            Sort::Fresh => {
                let nonce = self.contents.nonces().get(number);
                if !is_own(nonce, self.number, self.agent, variable) {
                    return None;
                }
                atom_at(Kind::Nonce, number).map(Some)
            }
            Sort::Plain(kind) => atom_at(kind, number).map(Some),
        }
    }

    // What the variable stands for at the start, if it may have this number.
    fn slot(&self, variable: usize, number: u16) -> Option<Option<Atom>>
        ensures { result ≡ slot_of (contents_of self.now.contents.now) self.now.number self.now.agent (role_of self.now.role.now) variable number }
    {
        if is_awaited(self.role, variable) {
            return nothing(number);
        }
        match self.role.variables.get(variable) {
            None => nothing(number),
            Some(v) => self.chosen(variable, v.sort, number),
        }
    }

    // What all variables stand for.
    fn slots(&self, numbers: [u16; 5]) -> Option<[Option<Atom>; 5]>
        ensures { result ≡ each (slot_of (contents_of self.now.contents.now) self.now.number self.now.agent (role_of self.now.role.now)) 0 numbers }
    {
        let mut slots = [None; 5];
        for (i, number) in numbers.iter().enumerate() {
            slots[i] = self.slot(i, *number)?;
        }
        Some(slots)
    }
}

// The session in which an agent begins to play a role.
fn new_session(
    sheet: &Sheet,
    number: usize,
    agent: u8,
    numbers: [u16; 5],
) -> Result<Session, Refusal>
    ensures { result ≡ to_start number agent numbers sheet.now }
{
    let contents = sheet.contents().ok_or(Refusal::NoRole)?;
    let role = contents.roles().get(number).ok_or(Refusal::NoRole)?;
    if !contents.is_played_by(role, usize::from(agent)) {
        return Err(Refusal::NotPlayer);
    }
    let part = Part {
        contents,
        number,
        role,
        agent,
    };
    let values = part.slots(numbers).ok_or(Refusal::NotAllowed)?;
    Ok(Session {
        role: number,
        agent,
        next: 0,
        values,
    })
}

impl Board<'_, '_, '_> {
    // What `start` does.
    pub(super) fn try_start(
        &mut self,
        role: usize,
        agent: u8,
        values: [u16; 5],
    ) -> Result<usize, Refusal>
        ensures { Starts role agent values self.old self.new result }
    {
        let session = new_session(self.sheet, role, agent, values)?;
        let number = self.sessions.len();
        if self.sessions.push(session).is_err() {
            return Err(Refusal::SessionsFull);
        }
        Ok(number)
    }
}
