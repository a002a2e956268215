// Rehearsing: any calls, with any arguments, one after another.
ghost use Rattle.std.specs.Prelude.{◌≡◌};
ghost use Rattle.board.specs.Calls.{Called};
ghost use Rattle.board.specs.Rehearsing.{Does, Guards, Plays};

use super::board::Board;
use super::refusal::Refusal;
use super::steps::is_read;
use medium::Medium;
use rehearsals::log_is_guarded;
use scale::Scale;
use sheet_laws::claims_are_of_two_events;

// A call of the board, with any arguments. The values are five numbers in the order in which the role declares its variables: those of the fresh and the
// chosen ones, and 0 elsewhere.
#[derive(Clone, Copy)]
pub enum Act<'a> {
    Start {
        role: usize,
        agent: u8,
        values: [u16; 5],
    },
    Send {
        session: usize,
    },
    Deliver {
        session: usize,
        bytes: &'a [u8],
    },
    Signal {
        session: usize,
    },
}

// Makes one call.
fn play<M: Medium>(board: &mut Board, medium: &mut M, act: Act) -> Result<(), Refusal>
    ensures does { Does M.meaning M.steps act.entry board.old medium.old board.new medium.new result }
    ensures call { Called M.meaning board.old medium.old board.new medium.new }
    ensures sheet { board.new.sheet.now ≡ board.old.sheet.now }
{
    match act {
        Act::Start {
            role,
            agent,
            values,
        } => {
            board.start(role, agent, values)?;
            Ok(())
        }
        Act::Send { session } => {
            board.send(session, medium)?;
            Ok(())
        }
        Act::Deliver { session, bytes } => board.deliver(session, medium, bytes),
        Act::Signal { session } => board.signal(session),
    }
}

// Makes the calls one after another, and answers how many were declined. A call that is declined changes nothing, and the others go on.
pub fn rehearse<S: Scale, M: Medium>(board: &mut Board, medium: &mut M, acts: &[Act]) -> usize
    ensures plays { Plays M.meaning M.steps board.old medium.old acts.now board.new medium.new result }
    ensures guarded { Guards S.meaning M.meaning board.old medium.old board.new }
{
    log_is_guarded::<S, M>();
    claims_are_of_two_events();
    is_read(board.sheet);
    let mut declined = 0;
    for act in acts {
        if play(board, medium, *act).is_err() {
            declined += 1;
        }
    }
    declined
}
