// What a session does next.
ghost use Rattle.std.specs.Prelude.{◌≡◌, ◌<◌, ◌≤◌, MatchOption, length};
ghost use Rattle.std.specs.Option.{option_map};
ghost use Rattle.instances.specs.Actions.{event};
ghost use Rattle.instances.specs.Writing.{values_of};
ghost use Rattle.model.specs.Stored.{role_of, signal_of, step_of};
ghost use Rattle.board.specs.declared.refusal.Move.TheVariants.{Deliver};
ghost use Rattle.board.specs.declared.refusal.Refusal.TheVariants.{OtherStep};
ghost use Rattle.board.specs.Deliveries.{receiving};
ghost use Rattle.board.specs.Receiving.{ReceivesAt};
ghost use Rattle.board.specs.Steps.{Keeps, Read, Spells, WasRead, next_action, next_step, sent, signalled};

use super::records::{Event, Session};
use instances::{Values, substitute};
use message::Message;
use model::{Role, Signal, Step, Term};
use sheet::Sheet;
use sheet_laws::signals_are_formed;

// What a sheet holds was read.
pub(super) fn is_read(sheet: &Sheet)
    ensures { Read sheet.now }
{
    let _ = sheet.contents();
}

// The session's next step.
pub(super) fn next_step<'s>(sheet: &'s Sheet, session: &Session) -> Option<&'s Step>
    ensures step { option_map (λ s. step_of s.now) result ≡ next_step sheet.now session.now }
    ensures read { MatchOption result (Unit {0}) (λ s. WasRead sheet.now) }
    ensures within { MatchOption result (Unit {0}) (λ s. session.now.next < usize.MAX) }
{
    sheet
        .contents()?
        .roles()
        .get(session.role)?
        .steps
        .get(session.next)
}

impl Session {
    // What stands for something in its script.
    pub(super) fn script_values(&self) -> Values<'_>
        ensures player { result.player ≡ Some self.now.agent }
        ensures variables { result.variables.now ≡ self.now.values }
    {
        Values {
            player: Some(self.agent),
            variables: &self.values,
        }
    }
}

// The event that a signal is.
fn event(values: &Values, signal: &Signal) -> Option<Event>
    requires { length signal.now.fields.items ≤ 4 }
    ensures { Keeps (event (values_of values.now) (signal_of signal.now)) result }
{
    let mut atoms = [None; 4];
    for (i, field) in signal.fields.iter().enumerate() {
        atoms[i] = Some(values.atom(*field)?);
    }
    Some(Event {
        word: signal.word,
        atoms,
    })
}

// The event that the session is to signal, if its next step is a signal.
pub(super) fn next_event(sheet: &Sheet, session: &Session) -> Option<Event>
    ensures event { Keeps (signalled (next_action sheet.now session.now)) result }
    ensures within { MatchOption result (Unit {0}) (λ e. session.now.next < usize.MAX) }
{
    signals_are_formed();
    match next_step(sheet, session)? {
        Step::Signal(signal) => event(&session.script_values(), signal),
        Step::Send(_) | Step::Receive(_) => None,
    }
}

// The message that the session is to send, if its next step sends one.
pub(super) fn next_message(sheet: &Sheet, session: &Session) -> Option<Message>
    ensures message { Spells (sent (next_action sheet.now session.now)) result }
    ensures within { MatchOption result (Unit {0}) (λ m. session.now.next < usize.MAX) }
{
    match next_step(sheet, session)? {
        Step::Send(term) => substitute(term, &session.script_values()),
        Step::Receive(_) | Step::Signal(_) => None,
    }
}

// What a step receives, and the role that it is of.
#[derive(Clone, Copy)]
pub(super) struct Received<'s> {
    pub role: &'s Role,
    pub term: &'s Term,
}

// The role and the term that the session's next step receives, if it receives one.
pub(super) fn next_received<'s>(sheet: &'s Sheet, session: &Session) -> Option<Received<'s>>
    ensures received { ReceivesAt sheet.now session.now result }
    ensures who { MatchOption result (receiving session.now (next_step sheet.now session.now) ≡ Err (OtherStep Deliver)) (λ r. receiving session.now (next_step sheet.now session.now) ≡ Ok session.now) }
    ensures within { MatchOption result (Unit {0}) (λ r. session.now.next < usize.MAX) }
{
    let role = sheet.contents()?.roles().get(session.role)?;
    match role.steps.get(session.next)? {
        Step::Receive(term) => Some(Received { role, term }),
        Step::Send(_) | Step::Signal(_) => None,
    }
}
