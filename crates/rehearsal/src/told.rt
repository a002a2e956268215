// Atoms, events and bytes as they are told.
use board::Event;
use message::Atom;
use model::Name;
use sheet::Contents;
use std::fmt;

// An atom by its name, or `#` and its number if it has none.
#[derive(Clone, Copy)]
pub struct ToldAtom<'a> {
    pub contents: &'a Contents,
    pub atom: Atom,
}

impl<'a> ToldAtom<'a> {
    fn number(&self) -> u16 {
        match self.atom {
            Atom::Agent(number) => u16::from(number),
            Atom::Nonce(number) | Atom::Text(number) => number,
        }
    }

    fn name(&self) -> Option<Name> {
        let i = usize::from(self.number());
        match self.atom {
            Atom::Agent(_) => self.contents.agents().get(i).map(|agent| agent.name),
            Atom::Nonce(_) => self.contents.nonces().get(i).map(|nonce| nonce.name),
            Atom::Text(_) => self.contents.texts().get(i).copied(),
        }
    }
}

impl<'a> fmt::Display for ToldAtom<'a> {
    fn fmt<W: fmt::Write>(&self, f: &mut fmt::Formatter<W>) -> fmt::Result {
        match self.name() {
            Some(name) => write!(f, "{name}"),
            None => write!(f, "#{}", self.number()),
        }
    }
}

// An event: its word, and its atoms by their names.
#[derive(Clone, Copy)]
pub struct ToldEvent<'a> {
    pub contents: &'a Contents,
    pub event: Event,
}

impl<'a> fmt::Display for ToldEvent<'a> {
    fn fmt<W: fmt::Write>(&self, f: &mut fmt::Formatter<W>) -> fmt::Result {
        write!(f, "{}", self.event.word)?;
        for atom in self.event.atoms.iter().copied().flatten() {
            let contents = self.contents;
            write!(f, " {}", ToldAtom { contents, atom })?;
        }
        Ok(())
    }
}

// Bytes in hexadecimal, each with a space before it.
#[derive(Clone, Copy)]
pub struct ToldBytes<'a>(pub &'a [u8]);

impl<'a> fmt::Display for ToldBytes<'a> {
    fn fmt<W: fmt::Write>(&self, f: &mut fmt::Formatter<W>) -> fmt::Result {
        for byte in self.0 {
            write!(f, " {byte:02X}")?;
        }
        Ok(())
    }
}
