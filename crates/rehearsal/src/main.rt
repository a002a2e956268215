// rehearsal: reads a sheet from standard input, tells what it says and the verdict on it, or its first fault, and runs a contact script on it.
#![tactic(auto)]

mod calls;
mod contact;
mod log;
mod script;
mod told;
mod verdict;

use checker::{Unchecked, check};
use contact::run_script;
use lexer::Declined;
use model::{Agent, Role, Sort};
use scale::Whole;
use sheet::{Contents, Sheet};
use std::io::Read;
use std::{env, fmt, fs};
use verdict::ToldVerdict;

// No sheet has more bytes.
const MOST_BYTES: u64 = 8192;

// How the variable of this number, of this sort, gets what it stands for.
fn origin(role: &Role, variable: usize, sort: Sort) -> &'static str {
    match sort {
        Sort::Fresh => "fresh",
        Sort::Plain(_) if role.is_received(variable) => "received",
        Sort::Plain(_) => "chosen",
    }
}

// A role as it is told: who plays it, its variables, and how many steps it has.
#[derive(Clone, Copy)]
struct ToldRole<'a> {
    agents: &'a [Agent],
    role: &'a Role,
}

impl<'a> ToldRole<'a> {
    // The agent that alone plays the role.
    fn player(&self) -> Option<&'a Agent> {
        self.role.player.and_then(|i| self.agents.get(i))
    }

    fn write_variables<W: fmt::Write>(&self, f: &mut fmt::Formatter<W>) -> fmt::Result {
        if self.role.variables.is_empty() {
            f.write_str("no variables")?;
        }
        for (i, variable) in self.role.variables.iter().enumerate() {
            let separator = if i > 0 { ", " } else { "" };
            let origin = origin(self.role, i, variable.sort);
            write!(f, "{separator}{} {origin}", variable.name)?;
        }
        Ok(())
    }
}

impl<'a> fmt::Display for ToldRole<'a> {
    fn fmt<W: fmt::Write>(&self, f: &mut fmt::Formatter<W>) -> fmt::Result {
        write!(f, "role {}, played by ", self.role.name)?;
        match self.player() {
            Some(agent) => write!(f, "{}: ", agent.name)?,
            None => f.write_str("any: ")?,
        }
        self.write_variables(f)?;
        write!(f, "; {} steps", self.role.steps.len())
    }
}

// What the sheet says in short.
fn tell(rt: &HostRuntime, contents: &Contents) -> anyhow::Result<()> {
    println!(rt;
        "sheet read: {} agents, {} texts, {} roles, {} nonces, {} known",
        contents.agents().len(),
        contents.texts().len(),
        contents.roles().len(),
        contents.nonces().len(),
        contents.known().len()
    )?;
    for role in contents.roles() {
        let agents = contents.agents();
        println!(rt; "{}", ToldRole { agents, role })?;
    }
    Ok(())
}

// The verdict on the whole scale, or why there is none.
fn tell_verdict(rt: &HostRuntime, sheet: &Sheet, contents: &Contents) -> anyhow::Result<()> {
    match check::<Whole>(rt.alloc(), sheet) {
        Ok(verdict) => {
            let verdict = &verdict;
            println!(rt; "{}", ToldVerdict { contents, verdict })?;
        }
        Err(unchecked @ Unchecked::Memory) => return Err(unchecked.into()),
        Err(unchecked) => println!(rt; "{unchecked}")?,
    }
    Ok(())
}

fn run(rt: &HostRuntime) -> anyhow::Result<()> {
    let mut text = Vec::new(rt.alloc());
    // One byte past the most suffices to see that a text is too long.
    rt.stdin().take(MOST_BYTES + 1).read_to_end(&mut text)?;
    let mut sheet = Sheet::new(rt.alloc());
    match sheet.read(text.as_slice()) {
        Ok(()) => {}
        Err(declined @ Declined::Fault(_)) => println!(rt; "{declined}")?,
        Err(declined @ Declined::Memory) => return Err(declined.into()),
    }
    // A sheet that is not read is empty.
    if let Some(contents) = sheet.contents() {
        tell(rt, contents)?;
        tell_verdict(rt, &sheet, contents)?;
        // The first argument after the program's name.
        if let Some(path) = env::args(rt)?.nth(1) {
            run_script(rt, &sheet, contents, fs::read(rt, path)?.as_slice())?;
        }
    }
    Ok(())
}

fn main(rt: HostRuntime) -> anyhow::Result<()> {
    run(&rt)
}
