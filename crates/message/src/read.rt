// Reading messages from bytes: the one at the front, whether the whole is one, its parts.
ghost use Rattle.std.specs.Prelude.{◌≡◌, ◌+◌, ◌*◌, Decides};
ghost use Rattle.message.specs.Message.{IsMessage};
ghost use Rattle.message.specs.Reading.{Fronts, Leaves, Same, Splits};

use super::{MOST, NotMessage};

// A message at the front of bytes, and what comes after it.
#[derive(Clone, Copy)]
pub struct Front<'a> {
    pub message: &'a [u8],
    pub rest: &'a [u8],
}

// A message one level down: an atom with its numbers, or the bytes of the parts.
#[derive(Clone, Copy)]
pub enum Parts<'a> {
    Agent(u8),
    Nonce(u16),
    Text(u16),
    Key(u8, u8),
    Pair { first: &'a [u8], second: &'a [u8] },
    Seal { key: &'a [u8], content: &'a [u8] },
}

// What comes after the form that the bytes begin with. It calls itself once for each pair and seal, so callers hand it few bytes.
fn after(bytes: &[u8]) -> Option<&[u8]>
    ensures { Leaves bytes.now result }
{
    let [tag, body @ ..] = bytes else {
        return None;
    };
    match (*tag as char, body) {
        ('A', [_, rest @ ..]) => Some(rest),
        ('N' | 'T', [_, _, rest @ ..]) => Some(rest),
        ('K', [lesser, greater, rest @ ..]) if lesser <= greater => Some(rest),
        ('P', body) => after(after(body)?),
        ('E', [key, lesser, greater, content @ ..]) if *key as char == 'K' && lesser <= greater => {
            after(content)
        }
        _ => None,
    }
}

// The message at the front of the bytes, and the rest after it.
pub fn read_front(bytes: &[u8]) -> Result<Front<'_>, NotMessage>
    ensures { Fronts bytes.now result }
{
    let window = &bytes[0..bytes.len().min(MOST)];
    let rest = after(window).ok_or(NotMessage)?;
    let (message, rest) = bytes.split_at(window.len() - rest.len());
    Ok(Front { message, rest })
}

// Whether the bytes are a message, and nothing else.
pub fn is_message(bytes: &[u8]) -> bool
    ensures { Decides result (IsMessage bytes.now) }
{
    bytes.len() <= MOST && after(bytes).is_some_and(<[u8]>::is_empty)
}

// Whether the two are the same message. What is no message is the same as nothing.
pub fn same_message(a: &[u8], b: &[u8]) -> bool
    ensures { Decides result (Same a.now b.now) }
{
    a == b && is_message(a)
}

// A number from its two bytes, the high one first.
fn number(high: u8, low: u8) -> u16
    ensures { result ≡ high * 256 + low }
{
    u16::from_be_bytes([high, low])
}

// The parts of a message.
pub fn take_apart(bytes: &[u8]) -> Result<Parts<'_>, NotMessage>
    ensures { Splits bytes.now result }
{
    if !is_message(bytes) {
        return Err(NotMessage);
    }
    let [tag, body @ ..] = bytes else {
        return Err(NotMessage);
    };
    match (*tag as char, body) {
        ('A', [number, ..]) => Ok(Parts::Agent(*number)),
        ('N', [high, low, ..]) => Ok(Parts::Nonce(number(*high, *low))),
        ('T', [high, low, ..]) => Ok(Parts::Text(number(*high, *low))),
        ('K', [lesser, greater, ..]) => Ok(Parts::Key(*lesser, *greater)),
        ('P', body) => {
            let second = after(body).ok_or(NotMessage)?;
            let first = &body[0..body.len() - second.len()];
            Ok(Parts::Pair { first, second })
        }
        ('E', [_, _, _, content @ ..]) => Ok(Parts::Seal {
            key: &body[0..3],
            content,
        }),
        _ => Err(NotMessage),
    }
}
