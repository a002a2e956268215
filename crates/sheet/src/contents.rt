// What a sheet says, part by part.
ghost use Rattle.std.specs.Prelude.{◌≡◌, map};
ghost use Rattle.model.specs.Names.{letters};
ghost use Rattle.model.specs.Sheet.{plays};
ghost use Rattle.model.specs.Stored.{agent_of, claim_of, nonce_of, ranked_of, role_of, sealed_of, signal_of, term_of, variable_of};
ghost use Rattle.sheet.specs.Kept.{contents_of};
ghost use Rattle.sheet.specs.Sheets.{atom_of};

use model::{Agent, Claim, Name, Node, Nonce, Ranked, Role, Sealed, Signal, Term, Variable};

// What a sheet says. Agents, texts, roles and nonces are numbered from 0 in sheet order.
#[derive(Drop)]
pub struct Contents {
    pub(super) agents: Vec<Agent>,
    pub(super) texts: Vec<Name>,
    pub(super) roles: Vec<Role>,
    pub(super) nonces: Vec<Nonce>,
    pub(super) known: Vec<Term>,
    pub(super) claim: Claim,
    pub(super) free: Vec<Variable>,
    pub(super) atoms: Vec<Ranked<Node>>,
    pub(super) seals: Vec<Ranked<Sealed>>,
    pub(super) marks: Vec<Ranked<Signal>>,
}

impl Contents {
    // The named agents.
    pub fn agents(&self) -> &[Agent]
        ensures { map agent_of result.now ≡ (contents_of self.now).agents }
    {
        self.agents.as_slice()
    }

    // The names of the texts.
    pub fn texts(&self) -> &[Name]
        ensures { map letters result.now ≡ (contents_of self.now).texts }
    {
        self.texts.as_slice()
    }

    // The roles.
    pub fn roles(&self) -> &[Role]
        ensures { map role_of result.now ≡ (contents_of self.now).roles }
    {
        self.roles.as_slice()
    }

    // The named nonces.
    pub fn nonces(&self) -> &[Nonce]
        ensures { map nonce_of result.now ≡ (contents_of self.now).nonces }
    {
        self.nonces.as_slice()
    }

    // What the enemy knows beside what it always knows.
    pub fn known(&self) -> &[Term]
        ensures { map term_of result.now ≡ (contents_of self.now).known }
    {
        self.known.as_slice()
    }

    // Whether the agent may play the role: it is honest, and the player if the role has one.
    pub fn is_played_by(&self, role: &Role, agent: usize) -> bool
        ensures { result ≡ plays (contents_of self.now).agents (role_of role.now).player agent }
    {
        let honest = self.agents.get(agent).is_some_and(|a| !a.enemy);
        honest && role.player.is_none_or(|player| player == agent)
    }

    // The claim.
    pub fn claim(&self) -> &Claim
        ensures { claim_of result.now ≡ (contents_of self.now).claim }
    {
        &self.claim
    }

    // The free variables of the ranks.
    pub fn free(&self) -> &[Variable]
        ensures { map variable_of result.now ≡ (contents_of self.now).free }
    {
        self.free.as_slice()
    }

    // The `rank` lines: the ranks of atoms.
    pub fn atoms(&self) -> &[Ranked<Node>]
        ensures { map atom_of (map (ranked_of (λ n. n)) result.now) ≡ (contents_of self.now).atoms }
    {
        self.atoms.as_slice()
    }

    // The `seal` lines: the ranks of seals.
    pub fn seals(&self) -> &[Ranked<Sealed>]
        ensures { map (ranked_of sealed_of) result.now ≡ (contents_of self.now).seals }
    {
        self.seals.as_slice()
    }

    // The `mark` lines: the ranks of events.
    pub fn marks(&self) -> &[Ranked<Signal>]
        ensures { map (ranked_of signal_of) result.now ≡ (contents_of self.now).marks }
    {
        self.marks.as_slice()
    }
}
