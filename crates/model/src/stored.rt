// What a sheet is made of, as it is kept in memory.
ghost use Rattle.std.specs.Prelude.{◌≡◌};

use super::name::Name;
use super::node::{Field, Sort};
use super::term::Term;

// An agent, honest or the enemy's.
#[derive(Clone, Copy)]
pub struct Agent {
    pub name: Name,
    pub enemy: bool,
}

// A variable of a role or of the ranks.
#[derive(Clone, Copy)]
pub struct Variable {
    pub name: Name,
    pub sort: Sort,
}

// A signal word and its atoms.
#[derive(Drop)]
pub struct Signal {
    pub word: Name,
    pub fields: Vec<Field>,
}

// A step of a role's script.
#[derive(Drop)]
pub enum Step {
    Send(Term),
    Receive(Term),
    Signal(Signal),
}

// A role, which its player alone plays, or every honest agent where it has none.
#[derive(Drop)]
pub struct Role {
    pub name: Name,
    pub player: Option<usize>,
    pub variables: Vec<Variable>,
    pub steps: Vec<Step>,
}

// A nonce named for an agent, a role and a fresh variable there.
#[derive(Clone, Copy)]
pub struct Nonce {
    pub name: Name,
    pub agent: usize,
    pub role: usize,
    pub variable: usize,
}

impl Nonce {
    ghost use Rattle.model.specs.Sheet.{is_for};
    ghost use Rattle.model.specs.Stored.{nonce_of};

    // Whether it is named for this variable of the role where the agent plays it.
    pub fn is_for(&self, role: usize, agent: usize, variable: usize) -> bool
        ensures { result ≡ is_for role agent variable (nonce_of self.now) }
    {
        self.agent == agent && self.role == role && self.variable == variable
    }
}

// The completion is claimed to come only after the needed event.
#[derive(Drop)]
pub struct Claim {
    pub completion: Signal,
    pub needed: Signal,
}

// A seal under the key of two agents, as a line of the ranks has it. The bound on words is its content's.
#[derive(Drop)]
pub struct Sealed {
    pub first: Field,
    pub second: Field,
    pub content: Term,
}

// A line that gives a rank.
#[derive(Drop)]
pub struct Ranked<T> {
    pub rank: i16,
    pub what: T,
}
