// The lines of a contact script.
use hex_text::HexError;
use std::alloc::Global;
use std::str::from_utf8;

// How many bytes an area has where the line does not say it.
const DEFAULT_AREA: u16 = 16_384;

// How many entries a table has where no line says it.
const DEFAULT_TABLE: u16 = 4096;

// A medium, with the sizes of its areas in bytes.
#[derive(Clone, Copy)]
pub enum Over {
    Enemy { area: u16, marks: u16 },
    Relay { area: u16 },
}

impl Over {
    // What stands before a line says otherwise.
    pub const FIRST: Over = Over::Enemy {
        area: DEFAULT_AREA,
        marks: DEFAULT_AREA,
    };
}

// How many entries the tables of a board have.
#[derive(Clone, Copy)]
pub struct Tables {
    pub sessions: u16,
    pub log: u16,
}

impl Tables {
    // What they have where no line says otherwise.
    pub const DEFAULT: Tables = Tables {
        sessions: DEFAULT_TABLE,
        log: DEFAULT_TABLE,
    };
}

// A call of the board.
#[derive(Drop)]
pub enum Act {
    Start {
        role: u16,
        agent: u16,
        values: [u16; 5],
    },
    Send(u16),
    Deliver(u16, Vec<u8>),
    Signal(u16),
}

// What a line asks for.
#[derive(Drop)]
pub enum Command {
    Over(Over),
    Tables(Tables),
    Act(Act),
    Hear(Vec<u8>),
    Ask(Vec<u8>),
}

// The first word of a line, and what comes after the space behind it, if there is one.
fn split_word(line: &[u8]) -> (&[u8], Option<&[u8]>) {
    match line.iter().position(|byte| *byte == b' ') {
        Some(at) => (&line[..at], Some(&line[at + 1..])),
        None => (line, None),
    }
}

// The number that decimal digits without leading zeros write.
fn read_number(word: &[u8]) -> Option<u16> {
    if !word.iter().all(u8::is_ascii_digit) || (word.len() > 1 && word.first() == Some(&b'0')) {
        return None;
    }
    from_utf8(word).ok()?.parse().ok()
}

// So many numbers, parted by one space.
fn read_numbers<const N: usize>(text: &[u8]) -> Option<[u16; N]> {
    let mut words = text.split(|byte| *byte == b' ');
    let mut numbers = [0; N];
    for number in numbers.iter_mut() {
        *number = read_number(words.next()?)?;
    }
    words.next().is_none().then_some(numbers)
}

// `enemy`, `enemy N M`, `relay` or `relay N`
fn read_over(text: &[u8]) -> Option<Over> {
    let (kind, sizes) = split_word(text);
    match (kind, sizes) {
        (b"enemy", None) => Some(Over::FIRST),
        (b"enemy", Some(sizes)) => {
            let [area, marks] = read_numbers::<2>(sizes)?;
            Some(Over::Enemy { area, marks })
        }
        (b"relay", None) => Some(Over::Relay { area: DEFAULT_AREA }),
        (b"relay", Some(size)) => {
            let area = read_number(size)?;
            Some(Over::Relay { area })
        }
        _ => None,
    }
}

// How many entries for the sessions, and how many for the log.
fn read_tables(text: &[u8]) -> Option<Tables> {
    let [sessions, log] = read_numbers::<2>(text)?;
    Some(Tables { sessions, log })
}

// A role, an agent and the five numbers of the values.
fn read_start(text: &[u8]) -> Option<Act> {
    let [role, agent, a, b, c, d, e] = read_numbers::<7>(text)?;
    let values = [a, b, c, d, e];
    Some(Act::Start {
        role,
        agent,
        values,
    })
}

// Bytes in hexadecimal, or none at all where nothing follows the first word.
fn read_bytes(heap: Global, text: Option<&[u8]>) -> Result<Option<Vec<u8>>, HexError> {
    match text {
        None => Ok(Some(Vec::new(heap))),
        Some([]) => Ok(None),
        Some(text) => match hex_text::read(heap, text) {
            Ok(bytes) => Ok(Some(bytes)),
            Err(HexError::NotBytes) => Ok(None),
            Err(e @ HexError::NoMemory) => Err(e),
        },
    }
}

// A session and the bytes that it is to receive.
fn read_deliver(heap: Global, text: &[u8]) -> Result<Option<Act>, HexError> {
    let (number, bytes) = split_word(text);
    let Some(number) = read_number(number) else {
        return Ok(None);
    };
    let bytes = read_bytes(heap, bytes)?;
    Ok(bytes.map(|bytes| Act::Deliver(number, bytes)))
}

// The call that the line asks for, if it asks for one.
fn read_act(heap: Global, word: &[u8], text: &[u8]) -> Result<Option<Act>, HexError> {
    match word {
        b"start" => Ok(read_start(text)),
        b"send" => Ok(read_number(text).map(Act::Send)),
        b"deliver" => read_deliver(heap, text),
        b"signal" => Ok(read_number(text).map(Act::Signal)),
        _ => Ok(None),
    }
}

// What the line asks for; none where it is no line of a script.
pub fn read_command(heap: Global, line: &[u8]) -> Result<Option<Command>, HexError> {
    let (word, rest) = split_word(line);
    match (word, rest) {
        (b"hear", rest) => Ok(read_bytes(heap, rest)?.map(Command::Hear)),
        (b"ask", rest) => Ok(read_bytes(heap, rest)?.map(Command::Ask)),
        (b"over", Some(rest)) => Ok(read_over(rest).map(Command::Over)),
        (b"tables", Some(rest)) => Ok(read_tables(rest).map(Command::Tables)),
        (word, Some(rest)) => Ok(read_act(heap, word, rest)?.map(Command::Act)),
        _ => Ok(None),
    }
}
