// The messages of a sheet's `know` lines, in a row of their own.
ghost use Rattle.std.specs.Prelude.{◌≡◌, IfOk};
ghost use Rattle.medium.specs.Marks.{told_by};
ghost use Rattle.medium.specs.Told.{Tells};
ghost use Rattle.message.specs.Message.{Msg, Reads};
ghost use Rattle.sheet.specs.Kept.{contents_of};

use instances::{Values, substitute};
use sheet::Contents;
use std::alloc::{AllocError, Global};

// Messages in a row, with their marks.
#[derive(Drop)]
pub struct Told {
    pub bytes: Vec<u8>,
    pub marks: Vec<u8>,
}

impl Told {
    ghost use Rattle.std.specs.Prelude.{[], ◌∷◌, ◌++◌, ◌≤◌, List, length};

    // Puts a message behind the row, marked where it begins.
    fn push(&mut self, bytes: &[u8]) -> Result<(), AllocError>
        requires { length bytes.now ≤ 96 }
        ensures { (m : Msg) (ms : List Msg) → Reads bytes.now m → Tells ms self.old.bytes.items self.old.marks.items → IfOk result (λ _. Tells (ms ++ m ∷ []) self.new.bytes.items self.new.marks.items) }
    {
        self.marks.push(0)?;
        self.marks.push(1)?;
        self.bytes.push(bytes.len() as u8)?;
        self.bytes.extend_from_slice(bytes)?;
        self.marks.resize(self.bytes.len(), 0)?;
        Ok(())
    }

    // What the `know` lines of a sheet say.
    pub fn of(heap: Global, sheet: &Contents) -> Result<Told, AllocError>
        ensures { IfOk result (λ t. Tells (told_by (contents_of sheet.now)) t.bytes.items t.marks.items) }
    {
        let mut told = Told {
            bytes: Vec::new(heap),
            marks: Vec::new(heap),
        };
        let values = Values {
            player: None,
            variables: &[],
        };
        for term in sheet.known() {
            if let Some(message) = substitute(term, &values) {
                told.push(message.as_bytes())?;
            }
        }
        Ok(told)
    }
}
