// The contact over media, on a board of its own.
ghost use Rattle.std.specs.Prelude.{◌≡◌, ◌≤◌, IfOk, MatchOption, None, length};
ghost use Rattle.medium.specs.Enemies as enemies;
ghost use Rattle.medium.specs.Enemies.{analysing};
ghost use Rattle.medium.specs.Relays as relays;
ghost use Rattle.medium.specs.Relays.{relayed};
ghost use Rattle.sheet.specs.Kept.{contents_of};
ghost use Rattle.worked.specs.Silence.{silence};
ghost use Rattle.honest_contact.specs.Contact.{Carries, bytes_for_both, exchanged};
ghost use Rattle.honest_contact.specs.Endings.{Enough, Held, OverEnemy, OverRelay, Reached, Tells};

use super::calls::contact;
use super::ending::Ending;
use board::{Board, Event, Session};
use medium::{Enemy, Medium, Relay};
use sheet::{Contents, Sheet};
use std::alloc::{AllocError, Global};

// What is told of a contact that left the board.
fn tell(board: &Board, declined: usize) -> Ending
    ensures { Tells board.now declined result }
{
    let events = board.log();
    Ending {
        declined,
        logged: events.len(),
        first: events.first().copied(),
        second: events.get(1).copied(),
    }
}

// Holds the contact over the medium, on a board with these tables.
pub fn hold<'a, M: Medium>(
    sheet: &'a Sheet,
    sessions: &'a mut [Session],
    log: &'a mut [Event],
    medium: &mut M,
) -> Ending
    ensures held { Held M.meaning M.steps sheet.now sessions.old log.old medium.old medium.new result }
    ensures reached { Enough sheet.now sessions.old log.old → Carries M.meaning M.steps medium.old exchanged → Reached silence.claim result }
{
    let mut board = Board::new(sheet, sessions, log);
    let declined = contact(&mut board, medium);
    tell(&board, declined)
}

// A relay that has heard nothing. It carries both messages if they fit into the area.
fn new_relay<'a>(contents: &'a Contents, area: &'a mut [u8]) -> Relay<'a>
    ensures new { relays.New (contents_of contents.now) area.entry result }
    ensures carries { bytes_for_both ≤ length area.old → Carries relayed relays.Takes result exchanged }
{
    Relay::new(contents, area)
}

// Holds the contact over a relay. Where the sheet is not read there is none.
pub fn over_relay<'a>(
    sheet: &'a Sheet,
    sessions: &'a mut [Session],
    log: &'a mut [Event],
    area: &'a mut [u8],
) -> Option<Ending>
    ensures held { MatchOption result (sheet.now ≡ None) (OverRelay sheet.now sessions.old log.old area.old) }
    ensures reached { Enough sheet.now sessions.old log.old → bytes_for_both ≤ length area.old → MatchOption result ⊥ (Reached silence.claim) }
{
    let contents = sheet.contents()?;
    let mut relay = new_relay(contents, area);
    Some(hold(sheet, sessions, log, &mut relay))
}

// An enemy that has heard nothing. It carries both messages if they fit into each of the areas.
fn new_enemy<'a>(
    heap: Global,
    contents: &'a Contents,
    area: &'a mut [u8],
    marks: &'a mut [u8],
) -> Result<Enemy<'a>, AllocError>
    ensures new { IfOk result (λ e. enemies.New (contents_of contents.now) area.entry marks.entry e) }
    ensures carries { IfOk result (λ e. bytes_for_both ≤ length area.old → bytes_for_both ≤ length marks.old → Carries analysing enemies.Takes e exchanged) }
{
    Enemy::new(heap, contents, area, marks)
}

// Holds the contact over an enemy. Where the sheet is not read there is none.
pub fn over_enemy<'a>(
    heap: Global,
    sheet: &'a Sheet,
    sessions: &'a mut [Session],
    log: &'a mut [Event],
    area: &'a mut [u8],
    marks: &'a mut [u8],
) -> Result<Option<Ending>, AllocError>
    ensures held { IfOk result (λ o. MatchOption o (sheet.now ≡ None) (OverEnemy sheet.now sessions.old log.old area.old marks.old)) }
    ensures reached { Enough sheet.now sessions.old log.old → bytes_for_both ≤ length area.old → bytes_for_both ≤ length marks.old → IfOk result (λ o. MatchOption o ⊥ (Reached silence.claim)) }
{
    let Some(contents) = sheet.contents() else {
        return Ok(None);
    };
    let mut enemy = new_enemy(heap, contents, area, marks)?;
    Ok(Some(hold(sheet, sessions, log, &mut enemy)))
}
