// Runs a contact script on boards over media on a sheet, and tells what came of each line.
use super::calls::tell_act;
use super::log::tell_log;
use super::script::{Command, Over, Tables, read_command};
use board::{Board, Event, Session};
use medium::{Enemy, Medium, Relay};
use sheet::{Contents, Sheet};
use std::str::from_utf8;
use text_lines::Lines;

// What a script is run on.
#[derive(Clone, Copy)]
struct Stage<'a> {
    rt: &'a HostRuntime,
    sheet: &'a Sheet,
    contents: &'a Contents,
}

// The lines of a script that are still to be run, and how large the tables of its next board are.
#[derive(Drop)]
struct Rest<'a> {
    lines: Lines<'a>,
    tables: Tables,
}

// The medium that a line asks for, and that line.
#[derive(Clone, Copy)]
struct Next<'a> {
    over: Over,
    line: &'a [u8],
}

// So many entries.
fn filled<T: Copy>(rt: &HostRuntime, entry: T, count: u16) -> anyhow::Result<Vec<T>> {
    let mut table = Vec::new(rt.alloc());
    table.resize(usize::from(count), entry)?;
    Ok(table)
}

// An area of so many bytes.
fn area(rt: &HostRuntime, bytes: u16) -> anyhow::Result<Vec<u8>> {
    filled(rt, 0, bytes)
}

// Lets the medium hear the bytes.
fn hear<M: Medium>(rt: &HostRuntime, medium: &mut M, bytes: &[u8]) -> anyhow::Result<()> {
    match medium.take(bytes) {
        Ok(()) => println!(rt; "heard")?,
        Err(no_space) => println!(rt; "{no_space}")?,
    }
    Ok(())
}

// Asks the medium for the bytes.
fn ask<M: Medium>(rt: &HostRuntime, medium: &M, bytes: &[u8]) -> anyhow::Result<()> {
    let answer = if medium.offers(bytes) {
        "offered"
    } else {
        "not offered"
    };
    println!(rt; "{answer}")?;
    Ok(())
}

impl<'a> Stage<'a> {
    // Says the line itself.
    fn echo(&self, line: &[u8]) -> anyhow::Result<()> {
        println!(self.rt; "{}", from_utf8(line)?)?;
        Ok(())
    }

    // Runs the lines on the board until one asks for another medium, and then tells the log, if any call was made.
    fn run_over<'s, M: Medium>(
        &self,
        board: &mut Board,
        medium: &mut M,
        rest: &mut Rest<'s>,
    ) -> anyhow::Result<Option<Next<'s>>> {
        let (rt, contents) = (self.rt, self.contents);
        let mut called = false;
        let mut next = None;
        for line in rest.lines.by_ref() {
            match read_command(rt.alloc(), line)? {
                None => println!(rt; "not a line")?,
                Some(Command::Hear(bytes)) => hear(rt, medium, bytes.as_slice())?,
                Some(Command::Ask(bytes)) => ask(rt, medium, bytes.as_slice())?,
                Some(Command::Act(act)) => {
                    tell_act(rt, contents, board, medium, &act)?;
                    called = true;
                }
                Some(Command::Tables(tables)) => {
                    self.echo(line)?;
                    rest.tables = tables;
                }
                Some(Command::Over(over)) => {
                    next = Some(Next { over, line });
                    break;
                }
            }
        }
        if called {
            tell_log(rt, contents, board.log())?;
        }
        Ok(next)
    }

    // Runs the lines on a new board over this medium, until one asks for another.
    fn run_board<'s>(&self, over: Over, rest: &mut Rest<'s>) -> anyhow::Result<Option<Next<'s>>> {
        let (rt, contents) = (self.rt, self.contents);
        let tables = rest.tables;
        // What a line says of the tables holds for one board.
        rest.tables = Tables::DEFAULT;
        let mut sessions = filled(rt, Session::blank(), tables.sessions)?;
        let mut log = filled(rt, Event::blank(), tables.log)?;
        let mut board = Board::new(self.sheet, &mut sessions, &mut log);
        match over {
            Over::Enemy { area: bytes, marks } => {
                let (mut area, mut marks) = (area(rt, bytes)?, area(rt, marks)?);
                let mut enemy = Enemy::new(rt.alloc(), contents, &mut area, &mut marks)?;
                self.run_over(&mut board, &mut enemy, rest)
            }
            Over::Relay { area: bytes } => {
                let mut area = area(rt, bytes)?;
                self.run_over(&mut board, &mut Relay::new(contents, &mut area), rest)
            }
        }
    }
}

// Runs a script on the sheet, which says this.
pub fn run_script(
    rt: &HostRuntime,
    sheet: &Sheet,
    contents: &Contents,
    script: &[u8],
) -> anyhow::Result<()> {
    let stage = Stage {
        rt,
        sheet,
        contents,
    };
    let mut rest = Rest {
        lines: Lines(script),
        tables: Tables::DEFAULT,
    };
    let mut over = Over::FIRST;
    for _ in 0..=script.len() {
        match stage.run_board(over, &mut rest)? {
            None => return Ok(()),
            Some(next) => {
                stage.echo(next.line)?;
                over = next.over;
            }
        }
    }
    Ok(())
}
