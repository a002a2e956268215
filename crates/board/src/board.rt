// The board itself: made new, and what can be read of it.
ghost use Rattle.std.specs.Prelude.{◌≡◌, ◌<◌, [], length};

use super::records::{Event, Session};
use sheet::Sheet;
use tables::List;

// A sheet, the sessions of its roles, and the log of what they signalled. Both lists lie in tables that are lent.
#[derive(Drop)]
pub struct Board<'s, 'a, 'b> {
    pub(super) sheet: &'s Sheet,
    pub(super) sessions: List<'a, Session>,
    pub(super) log: List<'b, Event>,
}

impl<'s, 'a, 'b> Board<'s, 'a, 'b> {
    ghost use Rattle.board.specs.Boards.{Moves};
    ghost use Rattle.tables.specs.Entries.{entries, table_of};

    // No session has started, and the log is empty.
    pub fn new(
        sheet: &'s Sheet,
        sessions: &'a mut [Session],
        log: &'b mut [Event],
    ) -> Board<'s, 'a, 'b>
        ensures sheet { result.sheet.now ≡ sheet.now }
        ensures no_session { entries result.sessions ≡ [] }
        ensures sessions { table_of result.sessions ≡ sessions.old }
        ensures no_event { entries result.log ≡ [] }
        ensures log { table_of result.log ≡ log.old }
        ensures same_sessions { result.sessions.table.ghost_name ≡ sessions.entry.ghost_name }
        ensures same_log { result.log.table.ghost_name ≡ log.entry.ghost_name }
    {
        Board {
            sheet,
            sessions: List::new(sessions),
            log: List::new(log),
        }
    }

    // The sessions, numbered from 0 in the order in which they started.
    pub fn sessions(&self) -> &[Session]
        ensures { result.now ≡ entries self.now.sessions }
    {
        self.sessions.as_slice()
    }

    // The events that were signalled, in order.
    pub fn log(&self) -> &[Event]
        ensures { result.now ≡ entries self.now.log }
    {
        self.log.as_slice()
    }

    // Changes a session that is there.
    pub(super) fn put(&mut self, number: usize, session: Session)
        requires { number < length (entries self.old.sessions) }
        ensures { Moves number session self.old self.new }
    {
        self.sessions.set(number, session);
    }
}
