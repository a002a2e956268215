// Who and what has a name on the sheet: agents, texts, roles and nonces.
ghost use Rattle.std.specs.Prelude.{◌≡◌, ◌&&◌, ◌||◌, not, map};
ghost use Rattle.lexer.specs.Text.{line_of, word_of};
ghost use Rattle.draft.specs.Drafts.{named_scope, new_name, taken, variable_above};
ghost use Rattle.draft.specs.Kept.{Names, cast_of, title_of};
ghost use Rattle.model.specs.Sheet.{honest, may_play};
ghost use Rattle.model.specs.Names.{index_of, is_name, letters};
ghost use Rattle.terms.specs.Outcomes.{Reads};
ghost use Rattle.draft.specs.Reading.{agent_line, agent_shape, fresh_among, fresh_in, fresh_variable, kind_of, nonce_line, playable, player_of, plays, text_line, title_line};
ghost use Rattle.draft.specs.Sections.{no_cast};
ghost use Rattle.terms.specs.Scopes.{scope_of};
ghost use Rattle.model.specs.Stored.{agent_of, nonce_of, role_of, variable_of};
ghost use Rattle.terms.specs.Terms.{agent_names, has, role_names, variable_names};
ghost use Rattle.std.specs.List.{slice_get};

use lexer::{Declined, Line, Rule, Word};
use message::Kind;
use model::{Agent, Name, Nonce, Role, Sort, Variable, is_name};
use std::alloc::Global;
use terms::{Scope, find};

const MOST_AGENTS: usize = 6;

const MOST_TEXTS: usize = 6;

const MOST_NONCES: usize = 6;

// A role's name and player.
#[derive(Clone, Copy)]
pub struct Title {
    pub name: Name,
    pub player: Option<usize>,
}

// Agents, texts, roles and nonces, in sheet order. It has no model: the draft's calls write its fields, so contracts see it by a function of them.
#[derive(Drop)]
pub struct Cast {
    pub agents: Vec<Agent>,
    pub texts: Vec<Name>,
    pub roles: Vec<Role>,
    pub nonces: Vec<Nonce>,
}

// The kind that a word names. Neither type is of this crate, so no `TryFrom` can say it here.
pub(super) fn read_kind(word: &[u8]) -> Option<Kind>
    ensures { result ≡ kind_of word.now }
{
    match word {
        b"agent" => Some(Kind::Agent),
        b"nonce" => Some(Kind::Nonce),
        b"text" => Some(Kind::Text),
        _ => None,
    }
}

// The word as a name, if it may be one and nothing else has it.
pub(super) fn new_name(word: Word, taken: bool) -> Result<Name, Declined>
    ensures { Names (is_name word.entry.text.now && not taken) (word_of word.entry) result }
{
    if !is_name(word.text) || taken {
        return Err(word.fault(Rule::NewName));
    }
    Ok(Name::new(word.text))
}

// Whether some role has a variable of this name.
fn is_variable_above(roles: &[Role], word: &[u8]) -> bool
    ensures { result ≡ variable_above (map role_of roles.now) word.now }
{
    roles.iter().any(|role| has_variable(role, word))
}

fn has_variable(role: &Role, word: &[u8]) -> bool
    ensures { result ≡ has (variable_names (role_of role.now).variables) word.now }
{
    find(role.variables.as_slice(), word).is_some()
}

// The fresh variable of this name.
fn find_fresh_among(variables: &[Variable], word: &[u8]) -> Option<usize>
    ensures { result ≡ fresh_among (map variable_of variables.now) word.now }
{
    find(variables, word).filter(|i| is_fresh(variables, *i))
}

fn is_fresh(variables: &[Variable], i: usize) -> bool
    ensures { result ≡ fresh_variable (slice_get (map variable_of variables.now) i) }
{
    variables
        .get(i)
        .is_some_and(|variable| variable.sort == Sort::Fresh)
}

// `agent NAME` or `agent NAME enemy`
fn has_agent_shape(line: &Line) -> bool
    ensures { result ≡ agent_shape (line_of line.now) }
{
    line.len() == 2 || (line.len() == 3 && line.is(2, b"enemy"))
}

impl Cast {
    // Nothing has a name yet.
    #[tactic(auto, unfolding(crate::specs::Kept::cast_of))]
    pub(super) fn new(heap: Global) -> Cast
        ensures { cast_of result ≡ no_cast }
    {
        Cast {
            agents: Vec::new(heap),
            texts: Vec::new(heap),
            roles: Vec::new(heap),
            nonces: Vec::new(heap),
        }
    }

    // What a word may stand for where nothing but names may stand.
    #[tactic(auto, unfolding(crate::specs::Kept::cast_of))]
    pub(super) fn scope(&self) -> Scope<'_>
        ensures { scope_of result ≡ named_scope (cast_of self.now) }
    {
        Scope {
            script: false,
            variables: &[],
            agents: self.agents.as_slice(),
            texts: self.texts.as_slice(),
            nonces: self.nonces.as_slice(),
        }
    }

    // Whether an agent, text, role or nonce has this name.
    #[tactic(auto, unfolding(crate::specs::Kept::cast_of, crate::specs::Drafts::taken))]
    pub(super) fn is_taken(&self, word: &[u8]) -> bool
        ensures { result ≡ taken (cast_of self.now) word.now }
    {
        find(self.agents.as_slice(), word).is_some()
            || find(self.texts.as_slice(), word).is_some()
            || find(self.roles.as_slice(), word).is_some()
            || find(self.nonces.as_slice(), word).is_some()
    }

    // Whether that, or some role has a variable of this name.
    #[tactic(auto, unfolding(crate::specs::Kept::cast_of))]
    fn is_taken_above(&self, word: &[u8]) -> bool
        ensures { result ≡ (taken (cast_of self.now) word.now || variable_above (cast_of self.now).roles word.now) }
    {
        self.is_taken(word) || is_variable_above(self.roles.as_slice(), word)
    }

    // The name that a new agent, text, role or nonce gets.
    #[tactic(auto, unfolding(crate::specs::Drafts::new_name))]
    fn new_name(&self, word: Word) -> Result<Name, Declined>
        ensures { Names (new_name (cast_of self.now) word.entry.text.now) (word_of word.entry) result }
    {
        new_name(word, self.is_taken_above(word.text))
    }

    // The agent of this name.
    #[tactic(auto, unfolding(crate::specs::Kept::cast_of))]
    fn find_agent(&self, word: &[u8]) -> Option<usize>
        ensures { result ≡ index_of (agent_names (cast_of self.now).agents) word.now }
    {
        find(self.agents.as_slice(), word)
    }

    // The role of this name.
    #[tactic(auto, unfolding(crate::specs::Kept::cast_of))]
    fn find_role(&self, word: &[u8]) -> Option<usize>
        ensures { result ≡ index_of (role_names (cast_of self.now).roles) word.now }
    {
        find(self.roles.as_slice(), word)
    }

    // Whether the agent is an honest one.
    #[tactic(auto, unfolding(crate::specs::Kept::cast_of))]
    fn is_honest(&self, agent: usize) -> bool
        ensures { result ≡ honest (slice_get (cast_of self.now).agents agent) }
    {
        self.agents.get(agent).is_some_and(|agent| !agent.enemy)
    }

    // `agent NAME` or `agent NAME enemy`
    #[tactic(auto, unfolding(crate::specs::Kept::cast_of))]
    pub(super) fn read_agent(&self, line: &Line) -> Result<Agent, Declined>
        ensures { Reads agent_of (agent_line (cast_of self.now) (line_of line.now)) result }
    {
        if !has_agent_shape(line) {
            return Err(line.fault(Rule::Line));
        }
        if self.agents.len() >= MOST_AGENTS {
            return Err(line.fault(Rule::Count));
        }
        let name = self.new_name(line.word(1))?;
        Ok(Agent {
            name,
            enemy: line.len() == 3,
        })
    }

    // `text NAME`
    #[tactic(auto, unfolding(crate::specs::Kept::cast_of))]
    pub(super) fn read_text(&self, line: &Line) -> Result<Name, Declined>
        ensures { Reads letters (text_line (cast_of self.now) (line_of line.now)) result }
    {
        if line.len() != 2 {
            return Err(line.fault(Rule::Line));
        }
        if self.texts.len() >= MOST_TEXTS {
            return Err(line.fault(Rule::Count));
        }
        let name = self.new_name(line.word(1))?;
        Ok(name)
    }

    // The honest agent of this name.
    fn find_player(&self, word: &[u8]) -> Option<usize>
        ensures { result ≡ player_of (cast_of self.now) word.now }
    {
        self.find_agent(word).filter(|agent| self.is_honest(*agent))
    }

    // `role NAME` or `role NAME PLAYER`, whose count of words is right
    pub(super) fn read_title(&self, line: &Line) -> Result<Title, Declined>
        ensures { Reads title_of (title_line (cast_of self.now) (line_of line.now)) result }
    {
        let name = self.new_name(line.word(1))?;
        if line.len() == 2 {
            return Ok(Title { name, player: None });
        }
        let player = line.word(2);
        let agent = self
            .find_player(player.text)
            .ok_or(player.fault(Rule::Word))?;
        Ok(Title {
            name,
            player: Some(agent),
        })
    }

    // Whether a role with this player may be played by the agent. A match, since the two cases have nothing in common for a chain to say.
    fn is_played_by(&self, player: Option<usize>, agent: usize) -> bool
        ensures { result ≡ may_play (cast_of self.now).agents player agent }
    {
        match player {
            None => self.is_honest(agent),
            Some(player) => player == agent,
        }
    }

    // Whether the agent may play the role.
    #[tactic(auto, unfolding(crate::specs::Kept::cast_of))]
    fn may_play(&self, agent: usize, role: usize) -> bool
        ensures { result ≡ plays (cast_of self.now) agent (slice_get (cast_of self.now).roles role) }
    {
        self.roles
            .get(role)
            .is_some_and(|role| self.is_played_by(role.player, agent))
    }

    // The role of this name, if the agent may play it.
    fn find_playable(&self, agent: usize, word: &[u8]) -> Option<usize>
        ensures { result ≡ playable (cast_of self.now) agent word.now }
    {
        self.find_role(word)
            .filter(|role| self.may_play(agent, *role))
    }

    // The fresh variable of this name in the role.
    #[tactic(auto, unfolding(crate::specs::Kept::cast_of))]
    fn find_fresh(&self, role: usize, word: &[u8]) -> Option<usize>
        ensures { result ≡ fresh_in (slice_get (cast_of self.now).roles role) word.now }
    {
        let role = self.roles.get(role)?;
        find_fresh_among(role.variables.as_slice(), word)
    }

    // `nonce NAME AGENT ROLE FRESH`
    #[tactic(auto, unfolding(crate::specs::Kept::cast_of))]
    pub(super) fn read_nonce(&self, line: &Line) -> Result<Nonce, Declined>
        ensures { Reads nonce_of (nonce_line (cast_of self.now) (line_of line.now)) result }
    {
        if line.len() != 5 {
            return Err(line.fault(Rule::Line));
        }
        if self.nonces.len() >= MOST_NONCES {
            return Err(line.fault(Rule::Count));
        }
        let name = self.new_name(line.word(1))?;
        let (agent, role, variable) = (line.word(2), line.word(3), line.word(4));
        let agent = self.find_agent(agent.text).ok_or(agent.fault(Rule::Word))?;
        let role = self
            .find_playable(agent, role.text)
            .ok_or(role.fault(Rule::Word))?;
        let variable = self
            .find_fresh(role, variable.text)
            .ok_or(variable.fault(Rule::Word))?;
        Ok(Nonce {
            name,
            agent,
            role,
            variable,
        })
    }
}
