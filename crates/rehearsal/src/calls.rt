// Makes a script's calls of the board, and tells what came of each.
use super::script::Act;
use super::told::{ToldBytes, ToldEvent};
use board::{Board, Event, Refusal};
use medium::Medium;
use message::Message;
use sheet::Contents;
use std::fmt;

// What a call that is not declined comes to.
#[derive(Clone, Copy)]
enum Answer {
    Session(usize),
    Sent(Message),
    Delivered,
    Logged(Event),
}

// An answer as it is told.
#[derive(Clone, Copy)]
struct ToldAnswer<'a> {
    contents: &'a Contents,
    answer: Answer,
}

impl<'a> fmt::Display for ToldAnswer<'a> {
    fn fmt<W: fmt::Write>(&self, f: &mut fmt::Formatter<W>) -> fmt::Result {
        match self.answer {
            Answer::Session(number) => write!(f, "session {number}"),
            Answer::Sent(message) => write!(f, "sent{}", ToldBytes(message.as_bytes())),
            Answer::Delivered => f.write_str("delivered"),
            Answer::Logged(event) => {
                let contents = self.contents;
                write!(f, "logged {}", ToldEvent { contents, event })
            }
        }
    }
}

// The agent of a number. No sheet names an agent past 255, nor the agent 255, so that one stands for them all.
fn agent_of(number: u16) -> u8 {
    u8::try_from(number).unwrap_or(u8::MAX)
}

// Makes the call.
fn play<M: Medium>(board: &mut Board, medium: &mut M, act: &Act) -> Result<Answer, Refusal> {
    match act {
        Act::Start {
            role,
            agent,
            values,
        } => {
            let session = board.start(usize::from(*role), agent_of(*agent), *values)?;
            Ok(Answer::Session(session))
        }
        Act::Send(session) => {
            let message = board.send(usize::from(*session), medium)?;
            Ok(Answer::Sent(message))
        }
        Act::Deliver(session, bytes) => {
            board.deliver(usize::from(*session), medium, bytes.as_slice())?;
            Ok(Answer::Delivered)
        }
        Act::Signal(session) => {
            let number = board.log().len();
            board.signal(usize::from(*session))?;
            Ok(Answer::Logged(board.log()[number]))
        }
    }
}

// Makes the call, and tells what it answers.
pub fn tell_act<M: Medium>(
    rt: &HostRuntime,
    contents: &Contents,
    board: &mut Board,
    medium: &mut M,
    act: &Act,
) -> anyhow::Result<()> {
    match play(board, medium, act) {
        Ok(answer) => println!(rt; "{}", ToldAnswer { contents, answer })?,
        Err(refusal) => println!(rt; "{refusal}")?,
    }
    Ok(())
}
