// Instances of roles: what `self` and the variables stand for, and the message that a term is then.
#![tactic(auto)]

ghost use Rattle.std.specs.Prelude.{◌≡◌};
ghost use Rattle.instances.specs.Laws.{SubstitutionIsShort};
ghost use Rattle.instances.specs.Substitution.{agent_number, atom_at, key_under, message, value};
ghost use Rattle.instances.specs.Writing.{Owners, Puts, Substitutes, Writes, seal_bytes, values_of};
ghost use Rattle.message.specs.Message.{Fits, KeyFits, key_bytes, wire};
ghost use Rattle.model.specs.Stored.{sealed_of, term_of};
ghost use Rattle.model.specs.Trees.{key, leaf};

use message::{Atom, Kind, Message};
use model::{Field, Node, Sealed, Term};

// The agent that plays the role, and what each variable stands for; none where nothing does.
#[derive(Clone, Copy)]
pub struct Values<'a> {
    pub player: Option<u8>,
    pub variables: &'a [Option<Atom>],
}

// The atom of a kind and number, if the kind has one of that number.
pub fn atom_at(kind: Kind, number: usize) -> Option<Atom>
    ensures { result ≡ atom_at kind number }
{
    match kind {
        Kind::Agent => u8::try_from(number).ok().map(Atom::Agent),
        Kind::Nonce => u16::try_from(number).ok().map(Atom::Nonce),
        Kind::Text => u16::try_from(number).ok().map(Atom::Text),
    }
}

impl Values<'_> {
    // What a field stands for.
    pub fn atom(&self, field: Field) -> Option<Atom>
        ensures { result ≡ value (values_of self.now) field }
    {
        match field {
            Field::Player => self.player.map(Atom::Agent),
            Field::Variable(i) => self.variables.get(i).copied().flatten(),
            Field::Named(kind, number) => atom_at(kind, number),
        }
    }

    // The number of the agent that a field stands for; a nonce and a text are none.
    pub fn agent(&self, field: Field) -> Option<u8>
        ensures { result ≡ agent_number (value (values_of self.now) field) }
    {
        match self.atom(field)? {
            Atom::Agent(number) => Some(number),
            Atom::Nonce(_) | Atom::Text(_) => None,
        }
    }

    // The owners of the key of two fields.
    fn owners(&self, first: Field, second: Field) -> Option<(u8, u8)>
        ensures { Owners (key_under (values_of self.now) first second) result }
    {
        Some((self.agent(first)?, self.agent(second)?))
    }
}

// Writes the atom that a field stands for.
fn write_atom(values: &Values, field: Field, out: &mut Message) -> Option<()>
    ensures { Puts Fits wire (message (values_of values.now) (leaf field)) out.old out.new result }
{
    let atom = values.atom(field)?;
    out.atom(atom).ok()
}

// Writes the key of the agents that two fields stand for.
fn write_key(values: &Values, first: Field, second: Field, out: &mut Message) -> Option<()>
    ensures { Puts KeyFits key_bytes (key_under (values_of values.now) first second) out.old out.new result }
{
    let (a, b) = values.owners(first, second)?;
    out.key(u16::from(a), u16::from(b)).ok()
}

// Writes a seal under such a key as far as its content.
fn write_seal(values: &Values, first: Field, second: Field, out: &mut Message) -> Option<()>
    ensures { Puts KeyFits seal_bytes (key_under (values_of values.now) first second) out.old out.new result }
{
    let (a, b) = values.owners(first, second)?;
    out.seal(u16::from(a), u16::from(b)).ok()
}

// Writes the first of the terms that the nodes are, and answers the nodes after it. It calls itself for what stands under a pair or a seal, which in a term is little.
#[tactic(auto, using(crate::proofs::Nodes::node_writes))]
fn write<'a>(values: &Values, nodes: &'a [Node], out: &mut Message) -> Option<&'a [Node]>
    ensures { Writes (values_of values.now) nodes.now out.old out.new result }
{
    let (node, rest) = nodes.split_first()?;
    match *node {
        Node::Leaf(field) => {
            write_atom(values, field, out)?;
            Some(rest)
        }
        Node::Pair => {
            out.pair().ok()?;
            let second = write(values, rest, out)?;
            write(values, second, out)
        }
        Node::Key(first, second) => {
            write_key(values, first, second, out)?;
            Some(rest)
        }
        Node::Seal(first, second) => {
            write_seal(values, first, second, out)?;
            write(values, rest, out)
        }
    }
}

// The message that the term is under these values, if each of its fields stands for something, and those of keys for agents.
#[tactic(auto, using(crate::proofs::Wholes::term_declined, crate::proofs::Wholes::term_written))]
pub fn substitute(term: &Term, values: &Values) -> Option<Message>
    ensures { Substitutes (values_of values.now) (term_of term.now) result }
{
    let mut out = Message::new();
    write(values, term.nodes(), &mut out)?;
    Some(out)
}

// The key of the agents that two fields stand for, if they do.
#[tactic(auto, using(crate::proofs::Fronts::key_none, crate::proofs::Fronts::key_whole))]
pub fn substitute_key(first: Field, second: Field, values: &Values) -> Option<Message>
    ensures { Substitutes (values_of values.now) (key first second) result }
{
    let mut out = Message::new();
    write_key(values, first, second, &mut out)?;
    Some(out)
}

// The seal that a line of the ranks is under these values, if it is one.
#[tactic(auto, using(crate::proofs::Fronts::seal_front_none, crate::proofs::Fronts::seal_none, crate::proofs::Fronts::seal_whole))]
pub fn substitute_seal(seal: &Sealed, values: &Values) -> Option<Message>
    ensures { Substitutes (values_of values.now) (sealed_of seal.now) result }
{
    let mut out = Message::new();
    write_seal(values, seal.first, seal.second, &mut out)?;
    write(values, seal.content.nodes(), &mut out)?;
    Some(out)
}

// A term of at most 32 words is under any values a message of at most 96 bytes, if it is one.
#[tactic(auto, using(crate::proofs::Sizes::substitution_is_short))]
pub fn substitution_is_short()
    ensures { SubstitutionIsShort }
{}
