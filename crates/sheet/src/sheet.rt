// The sheet: unread and empty, or as it was read.
ghost use Rattle.std.specs.Prelude.{◌≡◌, ℕ, List, None, Ok, MatchOption};
ghost use Rattle.lexer.specs.Text.{lines_of};
ghost use Rattle.draft.specs.Kept.{draft_of};
ghost use Rattle.sheet.specs.Kept.{contents_of};
ghost use Rattle.terms.specs.Outcomes.{Reads, Sheeted};
ghost use Rattle.draft.specs.Sections.{blank, lines_from};
ghost use Rattle.sheet.specs.Codes.{read_once};
ghost use Rattle.sheet.specs.Sheets.{finished, reading};
ghost use Rattle.std.specs.Option.{option_map};

use super::contents::Contents;
use draft::{Draft, Part};
use lexer::{Declined, Line, Rule, read_lines};
use std::alloc::Global;
use std::marker::Model;

// What a text says. The text is kept beside it, so that the type itself says that whatever is kept was read.
#[derive(Drop)]
struct Reading {
    text: Vec<u8>,
    contents: Contents,
    ghost is_read: { reading text.items ≡ Ok (contents_of contents) } by { read_once text.items (contents_of contents) },
}

// A link sheet.
#[derive(Drop)]
pub struct Sheet {
    heap: Global,
    reading: Option<Reading>,
}

// Clauses see the sheet that was read, if one was.
impl Model for Sheet {
    ghost use Rattle.std.specs.Prelude.{Option};
    ghost use Rattle.std.specs.Option.{option_map};
    ghost use Rattle.model.specs.Sheet as model;
    ghost use Rattle.sheet.specs.Kept.{contents_of};
    ghost use Rattle.std.specs.Coded.{codes};
    ghost use Rattle.model.specs.Codes.{term_code};

    ghost Value = { Option model.Sheet };

    ghost coded = { Prim.hlevel (codes, term_code) };

    ghost view = { λ s. option_map (λ r. contents_of r.contents) s.reading };
}

// The draft that the lines make, from the first on.
fn read_draft(heap: Global, lines: &[Line]) -> Result<Draft, Declined>
    ensures { Reads draft_of (lines_from blank 1 (lines_of lines.now)) result }
{
    let mut draft = Draft::new(heap);
    for (i, line) in lines.iter().enumerate() {
        draft.read_line(i + 1, line)?;
    }
    Ok(draft)
}

// What a whole text says; it ends at `end`.
#[tactic(auto, unfolding(draft::specs::Kept::cast_of, draft::specs::Kept::table_of))]
fn finish(draft: Draft, end: usize) -> Result<Contents, Declined>
    ensures { Reads contents_of (finished end (draft_of draft) (draft_of draft).claim) result }
{
    let Draft {
        heap: _,
        part,
        sections: _,
        cast,
        script: _,
        known,
        claim,
        table,
    } = draft;
    match (part, claim) {
        (Part::End, Some(claim)) => Ok(Contents {
            agents: cast.agents,
            texts: cast.texts,
            roles: cast.roles,
            nonces: cast.nonces,
            known,
            claim,
            free: table.free.into_list(),
            atoms: table.atoms,
            seals: table.seals,
            marks: table.marks,
        }),
        _ => Err(Rule::Count.at(end)),
    }
}

fn read_contents(heap: Global, text: &[u8]) -> Result<Contents, Declined>
    ensures { Reads contents_of (reading text.now) result }
{
    let lines = read_lines(heap, text)?;
    let draft = read_draft(heap, lines.as_slice())?;
    finish(draft, text.len())
}

impl Sheet {
    // The unread sheet, which is empty.
    pub fn new(heap: Global) -> Sheet
        ensures { result ≡ None }
    {
        Sheet {
            heap,
            reading: None,
        }
    }

    // Reads a text into the sheet. A text that is declined, for want of memory too, leaves the sheet empty.
    pub fn read(&mut self, text: &[u8]) -> Result<(), Declined>
        ensures { Sheeted (reading text.now) self.new result }
    {
        self.reading = None;
        let contents = read_contents(self.heap, text)?;
        let mut kept = Vec::new(self.heap);
        kept.extend_from_slice(text)?;
        self.reading = Some(Reading {
            text: kept,
            contents,
        });
        Ok(())
    }

    // What the sheet says, if it was read.
    pub fn contents(&self) -> Option<&Contents>
        ensures contents { option_map (λ c. contents_of c.now) result ≡ self.now }
        ensures read { MatchOption result (Unit {0}) (λ c. (text : List ℕ) × (reading text ≡ Ok (contents_of c.now))) }
    {
        self.reading.as_ref().map(|reading| &reading.contents)
    }
}
