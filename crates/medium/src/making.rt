// Whether a message can be made from what is known.
ghost use Rattle.std.specs.Prelude.{◌≡◌, length};
ghost use Rattle.medium.specs.Making.{Makes};
ghost use Rattle.sheet.specs.Kept.{contents_of};

use super::analysis::{Row, is_known};
use message::{Parts, take_apart};
use sheet::Contents;

// Whether a message is known, or is paired or sealed from such. It calls itself for the parts, of which a message has few.
pub fn is_made(sheet: &Contents, row: Row, told: Row, bytes: &[u8]) -> bool
    requires long { length row.marks.now ≡ length row.bytes.now }
    requires told_long { length told.marks.now ≡ length told.bytes.now }
    ensures { Makes (contents_of sheet.now) row.entry.bytes.now row.entry.marks.now told.entry.bytes.now told.entry.marks.now bytes.now result }
{
    if is_known(sheet, row, told, bytes) {
        return true;
    }
    let Ok(parts) = take_apart(bytes) else {
        return false;
    };
    match parts {
        Parts::Pair { first, second } => {
            is_made(sheet, row, told, first) && is_made(sheet, row, told, second)
        }
        Parts::Seal { key, content } => {
            is_known(sheet, row, told, key) && is_made(sheet, row, told, content)
        }
        Parts::Agent(_) | Parts::Nonce(_) | Parts::Text(_) | Parts::Key(_, _) => false,
    }
}
