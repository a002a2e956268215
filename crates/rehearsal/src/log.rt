// The log of a board as it is told, and whether the needed event stands before each completion.
use super::told::ToldEvent;
use board::Event;
use instances::Values;
use model::{Claim, Signal};
use sheet::Contents;

// The event that the claim names. Its atoms are named ones, and stand for the same in every session.
fn event_of(signal: &Signal) -> Event {
    let values = Values {
        player: None,
        variables: &[],
    };
    let mut atoms = [None; 4];
    for (atom, field) in atoms.iter_mut().zip(signal.fields.iter()) {
        *atom = values.atom(*field);
    }
    let word = signal.word;
    Event { word, atoms }
}

// A line for each completion in the log, or one that there is none.
fn tell_completions(rt: &HostRuntime, claim: &Claim, log: &[Event]) -> anyhow::Result<()> {
    let (completion, needed) = (event_of(&claim.completion), event_of(&claim.needed));
    if !log.contains(&completion) {
        println!(rt; "no completion")?;
    }
    let first_needed = log.iter().position(|event| *event == needed);
    for (i, event) in log.iter().enumerate() {
        if *event == completion {
            match first_needed {
                Some(at) if at < i => println!(rt; "completion at {i}, needed at {at}")?,
                _ => println!(rt; "completion at {i} WITHOUT the needed event before it")?,
            }
        }
    }
    Ok(())
}

// A line for each event of the log, and what becomes of the claim.
pub fn tell_log(rt: &HostRuntime, contents: &Contents, log: &[Event]) -> anyhow::Result<()> {
    for (i, event) in log.iter().copied().enumerate() {
        println!(rt; "log {i}: {}", ToldEvent { contents, event })?;
    }
    tell_completions(rt, contents.claim(), log)
}
