// The rank of an event.
ghost use Rattle.std.specs.Prelude.{◌≡◌, ◌==◌, ◌&&◌, [], length, map};
ghost use Rattle.model.specs.Stored.{ranked_of, signal_of};
ghost use Rattle.ranks.specs.Matching.{are_named, is_event};
ghost use Rattle.ranks.specs.Ranking.{first_rank, mark_rank};
ghost use Rattle.ranks.specs.Ranks.{EventRank, event_of};
ghost use Rattle.sheet.specs.Kept.{contents_of};

use super::compute::or_fixed;
use super::matching::{Settled, may_stand};
use message::Atom;
use model::{Field, Ranked, Signal};
use scale::Scale;
use sheet::Contents;

// Whether the fields, of which only names stand for something, are these atoms.
fn are_named(fields: &[Field], atoms: &[Atom]) -> bool
    ensures { result ≡ are_named fields.now atoms.now }
{
    fields.len() == atoms.len()
        && fields.iter().zip(atoms).all(|(field, atom)| may_stand(
            &[],
            &Settled::Nothing,
            *field,
            *atom,
        ))
}

// Whether a line's signal is the event of this word and these atoms.
fn is_event(signal: &Signal, word: &[u8], atoms: &[Atom]) -> bool
    ensures { result ≡ is_event (signal_of signal.now) word.now atoms.now }
{
    signal.word.is(word) && are_named(signal.fields.as_slice(), atoms)
}

// The rank of the first line that lists the event.
fn first_mark(marks: &[Ranked<Signal>], word: &[u8], atoms: &[Atom]) -> Option<i16>
    ensures { result ≡ first_rank (λ s. is_event s word.now atoms.now) (map (ranked_of signal_of) marks.now) }
{
    marks
        .iter()
        .find(|line| is_event(&line.what, word, atoms))
        .map(|line| line.rank)
}

// That, else the fixed value.
fn mark_rank<S: Scale>(contents: &Contents, word: &[u8], atoms: &[Atom]) -> i16
    ensures { result ≡ mark_rank S.meaning (contents_of contents.now) word.now atoms.now }
{
    or_fixed::<S>(first_mark(contents.marks(), word, atoms))
}

// The rank of the event of this word and these atoms.
pub fn event_rank<S: Scale>(contents: &Contents, word: &[u8], atoms: &[Atom]) -> i16
    ensures { EventRank S.meaning (contents_of contents.now) (event_of word.now atoms.now) result }
{
    mark_rank::<S>(contents, word, atoms)
}
