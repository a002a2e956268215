// linkmsg: tells in words each message that a line of standard input has in hexadecimal, and counts what it read.
#![tactic(auto)]

use explain::{Unanswered, explain};
use message::NotMessage;
use std::io::Read;
use tally::Tally;
use text_lines::Lines;

mod explain;
mod tally;

// Prints what is said of a line, and counts it.
fn answer_line(rt: &HostRuntime, line: &[u8], tally: &mut Tally) -> anyhow::Result<()> {
    let answer = explain(rt.alloc(), line);
    tally.count(&answer);
    match answer {
        Ok(told) => println!(rt; "{told}")?,
        // These two are printed from texts of their own: to print the error itself costs a short line up to a third more.
        Err(Unanswered::NotMessage) => println!(rt; "refusal {}", NotMessage.number())?,
        Err(Unanswered::NotBytes) => println!(rt; "not bytes")?,
        Err(why @ Unanswered::NoMemory) => return Err(why.into()),
    }
    Ok(())
}

fn run(rt: &HostRuntime) -> anyhow::Result<()> {
    let mut input = Vec::new(rt.alloc());
    rt.stdin().read_to_end(&mut input)?;
    let mut tally = Tally::new();
    for line in Lines(&input) {
        answer_line(rt, line, &mut tally)?;
    }
    println!(rt; "{tally}")?;
    Ok(())
}

fn main(rt: HostRuntime) -> anyhow::Result<()> {
    run(&rt)
}
