// The first condition: whether all that the enemy knows at the start is positive.
ghost use Rattle.std.specs.Prelude.{◌≡◌, [], ◌∷◌, IsOkAnd, IsTrue, ◌↔◌, not};
ghost use Rattle.std.specs.List.{slice_get};
ghost use Rattle.std.specs.Option.{option_map};
ghost use Rattle.instances.specs.Start.{Own};
ghost use Rattle.instances.specs.Substitution.{message, names_alone};
ghost use Rattle.instances.specs.Writing.{values_of};
ghost use Rattle.message.specs.Message.{Reads};
ghost use Rattle.model.specs.Sheet.{honest};
ghost use Rattle.model.specs.Stored.{term_of};
ghost use Rattle.model.specs.Trees.{tree};
ghost use Rattle.ranks.specs.Ranks.{Positive};
ghost use Rattle.sheet.specs.Kept.{contents_of};
ghost use Rattle.checker.specs.Knowing.{FirstIfAny, ListsBad, TellsBad, msg_of};
ghost use Rattle.checker.specs.Verdicts.{BadKnown, BadRanked};

use super::meaning;
use instances::Values;
use message::{Atom, Message, NotMessage};
use model::{Node, Term};
use scale::Scale;
use sheet::Contents;

// Where nothing but names stands for something.
pub(super) fn names_alone() -> Values<'static>
    ensures { values_of result ≡ names_alone }
{
    Values {
        player: None,
        variables: &[],
    }
}

// Whether a `know` line of this term says a message that is not positive.
fn tells_bad<S: Scale>(contents: &Contents, term: &Term) -> bool
    ensures { IsTrue result ↔ TellsBad S.meaning (contents_of contents.now) (term_of term.now) }
{
    meaning::is_positive::<S>(contents, term, &names_alone()) == Some(false)
}

// The number of the first `know` line that is bad.
pub(super) fn first_known<S: Scale>(contents: &Contents) -> Option<usize>
    ensures { FirstIfAny (BadKnown S.meaning (contents_of contents.now)) result }
{
    contents
        .known()
        .iter()
        .position(|term| tells_bad::<S>(contents, term))
}

// Whether the agent is unnamed or marked as the enemy's.
fn is_enemys(contents: &Contents, agent: u8) -> bool
    ensures { result ≡ not (honest (slice_get (contents_of contents.now).agents agent)) }
{
    contents
        .agents()
        .get(usize::from(agent))
        .is_none_or(|agent| agent.enemy)
}

// What a `rank` line lists: an agent, a nonce or a text, or the key of two agents.
#[derive(Clone, Copy)]
enum Listed {
    Single(Atom),
    Key(u8, u8),
}

impl Listed {
    // What the line of this atom lists.
    fn of(atom: Node) -> Option<Listed>
        ensures { option_map msg_of result ≡ message names_alone (tree (atom ∷ [])) }
    {
        match atom {
            Node::Leaf(field) => names_alone().atom(field).map(Listed::Single),
            Node::Key(first, second) => {
                let (a, b) = (names_alone().agent(first)?, names_alone().agent(second)?);
                Some(Listed::Key(a, b))
            }
            // A line has only atoms.
            Node::Pair | Node::Seal(_, _) => None,
        }
    }

    // Whether the enemy has it of its own: each agent, unnamed nonces and texts, and keys of one of its agents.
    fn is_own(self, contents: &Contents) -> bool
        ensures { IsTrue result ↔ Own (contents_of contents.now) (msg_of self) }
    {
        match self {
            Listed::Single(Atom::Agent(_)) => true,
            Listed::Single(Atom::Nonce(number)) => contents.nonces().len() <= usize::from(number),
            Listed::Single(Atom::Text(number)) => contents.texts().len() <= usize::from(number),
            Listed::Key(a, b) => is_enemys(contents, a) || is_enemys(contents, b),
        }
    }

    // Its bytes.
    fn message(self) -> Result<Message, NotMessage>
        ensures { IsOkAnd result (λ bytes. Reads bytes (msg_of self)) }
    {
        let mut out = Message::new();
        match self {
            Listed::Single(atom) => out.atom(atom)?,
            Listed::Key(a, b) => out.key(u16::from(a), u16::from(b))?,
        }
        Ok(out)
    }

    // Whether it is positive.
    fn is_positive<S: Scale>(self, contents: &Contents) -> bool
        ensures { IsTrue result ↔ Positive S.meaning (contents_of contents.now) (msg_of self) }
    {
        match self.message() {
            Ok(message) => ranks::is_positive::<S>(contents, message.as_bytes()),
            Err(_) => false,
        }
    }
}

// Whether a `rank` line of this atom makes an atom not positive that the enemy has of its own.
#[tactic(auto, using(crate::proofs::Knowing::listed_bad, crate::proofs::Knowing::unlisted))]
fn lists_bad<S: Scale>(contents: &Contents, atom: Node) -> bool
    ensures { IsTrue result ↔ ListsBad S.meaning (contents_of contents.now) (tree (atom ∷ [])) }
{
    match Listed::of(atom) {
        Some(listed) => listed.is_own(contents) && !listed.is_positive::<S>(contents),
        None => false,
    }
}

// The number of the first `rank` line that is bad.
pub(super) fn first_ranked<S: Scale>(contents: &Contents) -> Option<usize>
    ensures { FirstIfAny (BadRanked S.meaning (contents_of contents.now)) result }
{
    contents
        .atoms()
        .iter()
        .position(|line| lists_bad::<S>(contents, line.what))
}
