// The rank of a message, computed by a loop with a stack of ranks.
ghost use Rattle.std.specs.Prelude.{◌≡◌, ◌<◌, ◌≤◌, [], length, map, slice_get, Decides};
ghost use Rattle.std.specs.Option.{unwrap_or};
ghost use Rattle.model.specs.Stored.{ranked_of, sealed_of, variable_of};
ghost use Rattle.model.specs.Trees.{prefix};
ghost use Rattle.ranks.specs.Matching.{solves};
ghost use Rattle.ranks.specs.Ranking.{atom_rank, first_rank, ranked_on, seal_rank, stacked};
ghost use Rattle.ranks.specs.Ranks.{GivesBytes, IsPositive, RankOf};
ghost use Rattle.sheet.specs.Kept.{contents_of};
ghost use Rattle.sheet.specs.Sheets.{atom_of};

use super::matching::{gives, lists};
use super::piece::Piece;
use super::pieces::Pieces;
use super::stack::Stack;
use model::{Node, Ranked, Sealed, Variable};
use scale::Scale;
use sheet::Contents;

// The rank of the first line that lists the atom at the front of the pieces.
fn first_atom(atoms: &[Ranked<Node>], pieces: &[Piece]) -> Option<i16>
    ensures { result ≡ first_rank (λ t. solves [] [] (prefix t) pieces.now) (map atom_of (map (ranked_of (λ n. n)) atoms.now)) }
{
    atoms
        .iter()
        .find(|line| lists(line.what, pieces))
        .map(|line| line.rank)
}

// The rank of the first line that gives the seal at the front of the pieces.
fn first_seal(free: &[Variable], seals: &[Ranked<Sealed>], pieces: &[Piece]) -> Option<i16>
    ensures { result ≡ first_rank (λ t. solves (map variable_of free.now) [] (prefix t) pieces.now) (map (ranked_of sealed_of) seals.now) }
{
    seals
        .iter()
        .find(|line| gives(free, &line.what, pieces))
        .map(|line| line.rank)
}

// Whether a `seal` line gives the message that the bytes are.
pub fn gives_bytes(free: &[Variable], seal: &Sealed, bytes: &[u8]) -> bool
    ensures { Decides result (GivesBytes (map variable_of free.now) (sealed_of seal.now) bytes.now) }
{
    let Some(pieces) = Pieces::of(bytes) else {
        return false;
    };
    gives(free, seal, pieces.as_slice())
}

// The rank that a line gives, else the fixed value.
pub fn or_fixed<S: Scale>(rank: Option<i16>) -> i16
    ensures { result ≡ unwrap_or rank S.meaning.fixed }
{
    rank.unwrap_or(S::FIXED)
}

// The rank of the atom at the front of the pieces.
fn atom_rank<S: Scale>(contents: &Contents, pieces: &[Piece]) -> i16
    ensures { result ≡ atom_rank S.meaning (contents_of contents.now) pieces.now }
{
    or_fixed::<S>(first_atom(contents.atoms(), pieces))
}

// The rank of the first line that gives the seal at the front of the pieces, if one does.
fn seal_rank(contents: &Contents, pieces: &[Piece]) -> Option<i16>
    ensures { result ≡ seal_rank (contents_of contents.now) pieces.now }
{
    first_seal(contents.free(), contents.seals(), pieces)
}

// Puts the rank of what begins with the first piece in place of the ranks of its parts.
fn rank_on<S: Scale>(contents: &Contents, pieces: &[Piece], ranks: &mut Stack)
    requires { length ranks.old < 96 }
    ensures { ranks.new ≡ ranked_on S.meaning (contents_of contents.now) pieces.now ranks.old }
{
    match pieces.first() {
        None => {}
        Some(Piece::Single(_) | Piece::Key(_, _)) => ranks.push(atom_rank::<S>(contents, pieces)),
        Some(Piece::Pair) => {
            if let (Some(first), Some(second)) = (ranks.pop(), ranks.pop()) {
                ranks.push(S::join(first, second));
            }
        }
        Some(Piece::Seal(_, _)) => {
            if let Some(rank) = seal_rank(contents, pieces) {
                ranks.pop();
                ranks.push(rank);
            }
        }
    }
}

// The rank of the message that the pieces are, from the last piece to the first.
fn rank_pieces<S: Scale>(contents: &Contents, pieces: &[Piece]) -> Option<i16>
    requires { length pieces.now ≤ 96 }
    ensures { result ≡ slice_get (stacked S.meaning (contents_of contents.now) pieces.now) 0 }
{
    let mut ranks = Stack::new();
    for i in (0..pieces.len()).rev() {
        rank_on::<S>(contents, &pieces[i..], &mut ranks);
    }
    ranks.pop()
}

// The rank of a message; none for what is no message.
pub fn rank<S: Scale>(contents: &Contents, bytes: &[u8]) -> Option<i16>
    ensures { RankOf S.meaning (contents_of contents.now) bytes.now result }
{
    let pieces = Pieces::of(bytes)?;
    rank_pieces::<S>(contents, pieces.as_slice())
}

// Whether the bytes are a message of positive rank.
#[tactic(auto, using(crate::proofs::Deciding::positive_none))]
pub fn is_positive<S: Scale>(contents: &Contents, bytes: &[u8]) -> bool
    ensures { Decides result (IsPositive S.meaning (contents_of contents.now) bytes.now) }
{
    match rank::<S>(contents, bytes) {
        None => false,
        Some(rank) => S::is_positive(rank),
    }
}
