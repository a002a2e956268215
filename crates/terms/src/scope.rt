// What a word may stand for where it stands.
ghost use Rattle.std.specs.Prelude.{◌≡◌};
ghost use Rattle.terms.specs.Scopes.{scope_of};
ghost use Rattle.terms.specs.Terms.{agent_field, field_of, first_agent, second_agent};

use super::named::find;
use message::Kind;
use model::{Agent, Field, Name, Nonce, Sort, Variable};

// The agent that plays the role, in its script.
const SELF: &[u8] = b"self";

// In a role's script `self` and the role's variables, in the ranks the free variables, and the named ones.
#[derive(Clone, Copy)]
pub struct Scope<'a> {
    pub script: bool,
    pub variables: &'a [Variable],
    pub agents: &'a [Agent],
    pub texts: &'a [Name],
    pub nonces: &'a [Nonce],
}

impl<'a> Scope<'a> {
    // What the word stands for.
    pub fn field(&self, word: &[u8]) -> Option<Field>
        ensures { result ≡ field_of (scope_of self.now) word.now }
    {
        (self.script && word == SELF)
            .then_some(Field::Player)
            .or_else(|| find(self.variables, word).map(Field::Variable))
            .or_else(|| find(self.agents, word).map(|i| Field::Named(Kind::Agent, i)))
            .or_else(|| find(self.texts, word).map(|i| Field::Named(Kind::Text, i)))
            .or_else(|| find(self.nonces, word).map(|i| Field::Named(Kind::Nonce, i)))
    }

    // Whether the field is an agent.
    fn is_agent(&self, field: Field) -> bool
        ensures { result ≡ agent_field (scope_of self.now) field }
    {
        match field {
            Field::Player => true,
            Field::Variable(i) => self
                .variables
                .get(i)
                .is_some_and(|variable| variable.sort == Sort::Plain(Kind::Agent)),
            Field::Named(kind, _) => kind == Kind::Agent,
        }
    }

    // The first agent of a key or seal: `self` in a script, else a named one.
    pub fn first_agent(&self, word: &[u8]) -> Option<Field>
        ensures { result ≡ first_agent (scope_of self.now) word.now }
    {
        if self.script {
            return (word == SELF).then_some(Field::Player);
        }
        find(self.agents, word).map(|i| Field::Named(Kind::Agent, i))
    }

    // The second agent of a key or seal: any agent.
    pub fn second_agent(&self, word: &[u8]) -> Option<Field>
        ensures { result ≡ second_agent (scope_of self.now) word.now }
    {
        let field = self.field(word)?;
        self.is_agent(field).then_some(field)
    }
}
