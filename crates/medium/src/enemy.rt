// The enemy: a medium that hears all and offers all that can be made from it.
ghost use Rattle.std.specs.Prelude.{◌≡◌, [], ◌+◌, ◌<◌, ◌≤◌, ◌++◌, drop, length, replicate, take};
ghost use Rattle.medium.specs.Settled.{Analysed, analysed_prop};
ghost use Rattle.medium.specs.Spreading.{Learns};
ghost use Rattle.medium.specs.Store.{Put};
ghost use Rattle.sheet.specs.Kept.{contents_of};

use super::analysis::{Row, learn, settle};
use super::making::is_made;
use super::medium::{Medium, NoSpace};
use super::store::{admits, capacity, clear, put};
use super::told::Told;
use message::is_message;
use sheet::Contents;
use std::alloc::{AllocError, Global};

// Messages in one area of the caller's, and in the other a mark for each of their bytes: the message that begins there is known.
// The messages of the sheet's `know` lines have a row and marks of their own.
#[derive(Drop)]
pub struct Enemy<'a> {
    sheet: &'a Contents,
    area: &'a mut [u8],
    marks: &'a mut [u8],
    used: usize,
    told: Told,
    ghost analysed: { Analysed (contents_of sheet.now) used area.now marks.now told.bytes.items told.marks.items } by { analysed_prop (contents_of sheet.now) used area.now marks.now told.bytes.items told.marks.items },
}

// Puts a message behind those heard, and marks all that becomes known by it.
fn hear(
    sheet: &Contents,
    area: &mut [u8],
    marks: &mut [u8],
    used: usize,
    told: &mut Told,
    bytes: &[u8],
)
    requires area_room { used + length bytes.now + 1 ≤ length area.old }
    requires marks_room { used + length bytes.now + 1 ≤ length marks.old }
    requires told_long { length told.old.marks.items ≡ length told.old.bytes.items }
    requires short { length bytes.now < 256 }
    requires some { 0 < length bytes.now }
    ensures put { Put used bytes.now area.old area.new }
    ensures told { told.new.bytes.items ≡ told.old.bytes.items }
    ensures learnt { let end = used + length bytes.now + 1 in Learns (contents_of sheet.now) (take end area.new) told.old.bytes.items (take used marks.old ++ replicate (length bytes.now + 1) 0) told.old.marks.items (take end marks.new) told.new.marks.items (used + 1) }
    ensures behind { drop (used + length bytes.now + 1) marks.new ≡ drop (used + length bytes.now + 1) marks.old }
{
    let end = used + bytes.len() + 1;
    put(area, used, bytes);
    clear(marks, used, end);
    learn(
        sheet,
        &area[0..end],
        &mut marks[0..end],
        told.bytes.as_slice(),
        told.marks.as_mut_slice(),
        used + 1,
    );
}

impl<'a> Enemy<'a> {
    ghost use Rattle.std.specs.Prelude.{IfOk};
    ghost use Rattle.medium.specs.Enemies.{New};

    // An enemy on the sheet, which has heard nothing.
    pub fn new(
        heap: Global,
        sheet: &'a Contents,
        area: &'a mut [u8],
        marks: &'a mut [u8],
    ) -> Result<Enemy<'a>, AllocError>
        ensures { IfOk result (λ e. New (contents_of sheet.now) area.entry marks.entry e) }
    {
        let mut told = Told::of(heap, sheet)?;
        settle(
            sheet,
            &area[0..0],
            &mut marks[0..0],
            told.bytes.as_slice(),
            told.marks.as_mut_slice(),
            true,
        );
        Ok(Enemy {
            sheet,
            area,
            marks,
            used: 0,
            told,
        })
    }
}

impl Medium for Enemy<'_> {
    ghost use Rattle.medium.specs.Enemies.{Takes, analysing, enemy_sound};
    ghost use Rattle.medium.specs.Media.{hears_takes};

    ghost meaning = { λ s. analysing s };

    ghost sound = { λ s. enemy_sound s };

    ghost steps = { λ s m t. Takes s m t };

    ghost stepped = { λ s t m h. hears_takes _ _ m h.hears };

    #[tactic(auto, using(crate::proofs::Enemies::enemy_declines))]
    fn take(&mut self, bytes: &[u8]) -> Result<(), NoSpace> {
        let space = capacity(self.area.len().min(self.marks.len()));
        if !admits(space, self.used, bytes) {
            return Err(NoSpace);
        }
        hear(
            self.sheet,
            self.area,
            self.marks,
            self.used,
            &mut self.told,
            bytes,
        );
        self.used += bytes.len() + 1;
        Ok(())
    }

    fn offers(&self, bytes: &[u8]) -> bool {
        let heard = Row {
            bytes: &self.area[0..self.used],
            marks: &self.marks[0..self.used],
        };
        let told = Row {
            bytes: self.told.bytes.as_slice(),
            marks: self.told.marks.as_slice(),
        };
        is_message(bytes) && is_made(self.sheet, heard, told, bytes)
    }
}
