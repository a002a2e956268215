// Taking apart what is known. Messages stand in rows of bytes; a mark for each byte says whether the message that begins there is known.
ghost use Rattle.std.specs.Prelude.{◌≡◌, ◌+◌, ◌<◌, ◌≤◌, false, true, Decides, MatchOption, length};
ghost use Rattle.instances.specs.Start.{Enemys};
ghost use Rattle.medium.specs.Spreading.{Fronted, Knows, Marked, Learns, Marks, Owned, Seen, Settles, Spreads, Stands, Visits};
ghost use Rattle.message.specs.Message.{Msg};
ghost use Rattle.sheet.specs.Kept.{contents_of};

use message::{Parts, read_front, take_apart};
use sheet::Contents;

// Messages in a row, with their marks.
#[derive(Clone, Copy)]
pub struct Row<'b, 'm> {
    pub bytes: &'b [u8],
    pub marks: &'m [u8],
}

// Whether an agent is unnamed or the enemy's.
fn is_enemys(sheet: &Contents, agent: u8) -> bool
    ensures { Decides result (Enemys (contents_of sheet.now) agent) }
{
    sheet
        .agents()
        .get(usize::from(agent))
        .is_none_or(|agent| agent.enemy)
}

// Whether the bytes are a message that is known without any other.
fn is_own(sheet: &Contents, bytes: &[u8]) -> bool
    ensures { Decides result (Owned (contents_of sheet.now) bytes.now) }
{
    match take_apart(bytes) {
        Ok(Parts::Agent(_)) => true,
        Ok(Parts::Nonce(number)) => sheet.nonces().len() <= usize::from(number),
        Ok(Parts::Text(number)) => sheet.texts().len() <= usize::from(number),
        Ok(Parts::Key(a, b)) => is_enemys(sheet, a) || is_enemys(sheet, b),
        _ => false,
    }
}

// Whether these bytes begin at a marked byte.
fn is_seen(row: Row, wanted: &[u8]) -> bool
    requires { length row.marks.now ≡ length row.bytes.now }
    ensures { Decides result (Seen row.entry.bytes.now row.entry.marks.now wanted.now) }
{
    for (i, mark) in row.marks.iter().enumerate() {
        if *mark == 1 && row.bytes[i..].starts_with(wanted) {
            return true;
        }
    }
    false
}

// Whether these bytes are known without any other, or begin at a marked byte.
pub fn is_known(sheet: &Contents, row: Row, other: Row, wanted: &[u8]) -> bool
    requires long { length row.marks.now ≡ length row.bytes.now }
    requires other_long { length other.marks.now ≡ length other.bytes.now }
    ensures { Decides result (Knows (contents_of sheet.now) row.entry.bytes.now row.entry.marks.now other.entry.bytes.now other.entry.marks.now wanted.now) }
{
    is_own(sheet, wanted) || is_seen(row, wanted) || is_seen(other, wanted)
}

// Marks a byte, and says whether a key became known by it.
fn mark(sheet: &Contents, bytes: &[u8], marks: &mut [u8], other: Row, at: usize) -> bool
    requires long { length marks.old ≡ length bytes.now }
    requires other_long { length other.marks.now ≡ length other.bytes.now }
    requires within { at < length bytes.now }
    ensures { Marks (contents_of sheet.now) bytes.now other.entry.bytes.now other.entry.marks.now at marks.old marks.new result }
{
    if marks[at] == 1 {
        return false;
    }
    let key = &bytes[at..bytes.len().min(at + 3)];
    let fresh = key[0] == b'K' && !is_known(sheet, Row { bytes, marks }, other, key);
    marks[at] = 1;
    fresh
}

// The parts of the message at the front of the bytes.
fn parts_at(bytes: &[u8]) -> Option<Parts<'_>>
    ensures { MatchOption result ((m : Msg) → Stands bytes.now 0 m → ⊥) (Fronted bytes.now) }
{
    let front = read_front(bytes).ok()?;
    take_apart(front.message).ok()
}

// Marks what the message at a marked byte gives, and says whether a key became known by it.
fn visit(sheet: &Contents, bytes: &[u8], marks: &mut [u8], other: Row, i: usize) -> bool
    requires long { length marks.old ≡ length bytes.now }
    requires other_long { length other.marks.now ≡ length other.bytes.now }
    requires within { i < length bytes.now }
    requires marked { Marked marks.old i }
    ensures { Visits (contents_of sheet.now) bytes.now other.entry.bytes.now other.entry.marks.now i marks.old marks.new result }
{
    let Some(parts) = parts_at(&bytes[i..]) else {
        return false;
    };
    match parts {
        Parts::Pair { first, second: _ } => {
            let fresh = mark(sheet, bytes, marks, other, i + 1);
            mark(sheet, bytes, marks, other, i + 1 + first.len()) || fresh
        }
        Parts::Seal { key, content: _ } => {
            is_known(sheet, Row { bytes, marks }, other, key)
                && mark(sheet, bytes, marks, other, i + 4)
        }
        Parts::Agent(_) | Parts::Nonce(_) | Parts::Text(_) | Parts::Key(_, _) => false,
    }
}

// Marks all that the messages at marked bytes give, from a byte on, and says whether a key became known by it.
pub fn spread(sheet: &Contents, bytes: &[u8], marks: &mut [u8], other: Row, from: usize) -> bool
    requires long { length marks.old ≡ length bytes.now }
    requires other_long { length other.marks.now ≡ length other.bytes.now }
    ensures { Spreads (contents_of sheet.now) bytes.now other.entry.bytes.now other.entry.marks.now from marks.old marks.new result }
{
    let mut fresh = false;
    for i in from..bytes.len() {
        if marks[i] == 1 && visit(sheet, bytes, marks, other, i) {
            fresh = true;
        }
    }
    fresh
}

// Takes both rows apart again as long as a key becomes known, beginning where one did.
pub fn settle(
    sheet: &Contents,
    bytes: &[u8],
    marks: &mut [u8],
    told: &[u8],
    told_marks: &mut [u8],
    fresh: bool,
)
    requires long { length marks.old ≡ length bytes.now }
    requires told_long { length told_marks.old ≡ length told.now }
    ensures { Settles (contents_of sheet.now) bytes.now told.now marks.old told_marks.old marks.new told_marks.new fresh }
{
    let mut again = fresh;
    while again {
        let heard = Row { bytes, marks };
        let told_again = spread(sheet, told, told_marks, heard, 0);
        let known = Row {
            bytes: told,
            marks: told_marks,
        };
        let heard_again = spread(sheet, bytes, marks, known, 0);
        again = told_again | heard_again;
    }
}

// Marks the message at a byte of a row that is taken apart before it, and all that becomes known by it.
pub fn learn(
    sheet: &Contents,
    bytes: &[u8],
    marks: &mut [u8],
    told: &[u8],
    told_marks: &mut [u8],
    at: usize,
)
    requires long { length marks.old ≡ length bytes.now }
    requires told_long { length told_marks.old ≡ length told.now }
    requires within { at < length bytes.now }
    ensures { Learns (contents_of sheet.now) bytes.now told.now marks.old told_marks.old marks.new told_marks.new at }
{
    let told_row = Row {
        bytes: told,
        marks: told_marks,
    };
    let fresh = mark(sheet, bytes, marks, told_row, at);
    let more = spread(sheet, bytes, marks, told_row, at);
    settle(sheet, bytes, marks, told, told_marks, fresh | more);
}
