// A sheet as far as it is read, line by line.
ghost use Rattle.std.specs.Prelude.{◌≡◌, ◌<◌, ◌&&◌, length, Ok, decimal, nat_lt};
ghost use Rattle.lexer.specs.declared.Rule.TheVariants.{Line as Misplaced};
ghost use Rattle.lexer.specs.Text.{is, is_only, line_of, words_of};
ghost use Rattle.draft.specs.Kept.{cast_of, draft_of};
ghost use Rattle.draft.specs.Reading.{back_line, claim_at, claim_line, claim_shape, few_atoms, know_line, needs_at, role_shape, says_all, unless};
ghost use Rattle.draft.specs.Sections.{back_or, blank, closed, in_agents, in_claim, in_free, in_known, in_marks, in_nonces, in_opening, in_part, in_ranks, in_roles, in_seals, in_start, in_steps, in_texts, in_variables, next_role, opened, role_end, role_line, stepped};
ghost use Rattle.terms.specs.Outcomes.{Becomes, Reads};
ghost use Rattle.model.specs.Stored.{claim_of, step_of, term_of};
ghost use Rattle.model.specs.Variables.{receives};

use super::cast::Cast;
use super::script::Script;
use super::table::Table;
use lexer::{Declined, Line, Rule, Word};
use model::{Claim, Step, Term};
use std::alloc::Global;
use terms::{find, read_signal, read_term, same_signal};

// The first line of a sheet.
const HEADING: &[u8] = b"link sheet 1";

// Beside the one that is being read.
const MOST_CLOSED_ROLES: usize = 3;

const MOST_KNOWN: usize = 8;

const MOST_SIGNAL_ATOMS: usize = 4;

// Which lines may come next.
#[derive(Clone, Copy)]
pub enum Part {
    Start,
    Opening,
    Agents,
    Texts,
    Roles,
    Variables,
    Steps,
    Nonces,
    Known,
    Claim,
    Free,
    Ranks,
    Seals,
    Marks,
    End,
}

// What is read so far, which lines may come next, and the lines of the section words. It has no model, since its parts have none.
#[derive(Drop)]
pub struct Draft {
    pub heap: Global,
    pub part: Part,
    pub sections: Vec<usize>,
    pub cast: Cast,
    pub script: Script,
    pub known: Vec<Term>,
    pub claim: Option<Claim>,
    pub table: Table,
}

// One to four atoms.
fn are_few(atoms: usize) -> bool
    ensures { result ≡ few_atoms atoms }
{
    1 <= atoms && atoms <= MOST_SIGNAL_ATOMS
}

// `role NAME` or `role NAME PLAYER`
fn has_role_shape(line: &Line) -> bool
    ensures { result ≡ role_shape (line_of line.now) }
{
    line.len() == 2 || line.len() == 3
}

// How many words stand between the first atom's place and the first `needs` after it.
fn find_needs(line: &Line) -> Option<usize>
    ensures { result ≡ needs_at (line_of line.now) }
{
    find(line.from(2), b"needs")
}

// `holds WORD ATOMS needs WORD ATOMS`
fn has_claim_shape(line: &Line, needs: Option<usize>) -> bool
    ensures { result ≡ claim_shape (line_of line.now) needs }
{
    // A match, since with `is_some_and` the proof does not close.
    match needs {
        None => false,
        Some(atoms) => are_few(atoms)
            && are_few(line.len().saturating_sub(atoms.saturating_add(4))),
    }
}

// The claim of a line in which so many atoms stand before `needs`. It is lent the heap and the cast as `Script::read_term` is.
fn read_claim_at(heap: Global, cast: &Cast, line: &Line, atoms: usize) -> Result<Claim, Declined>
    requires { atoms < 64 }
    ensures { Reads claim_of (claim_at (cast_of cast.now) (line_of line.now) atoms) result }
{
    let scope = cast.scope();
    let completion = read_signal(heap, &scope, line.word(1), line.slice(2, atoms))?;
    let needed = read_signal(heap, &scope, line.word(atoms + 3), line.from(atoms + 4))?;
    if same_signal(&completion, &needed) {
        return Err(line.fault(Rule::Twice));
    }
    Ok(Claim { completion, needed })
}

impl Draft {
    // Nothing is read yet.
    pub fn new(heap: Global) -> Draft
        ensures { draft_of result ≡ blank }
    {
        Draft {
            heap,
            part: Part::Start,
            sections: Vec::new(heap),
            cast: Cast::new(heap),
            script: Script::empty(heap),
            known: Vec::new(heap),
            claim: None,
            table: Table::new(heap),
        }
    }

    // One line more, of this number counted from 1. What may come next is a state, so an enum with a call for each part says it plainest.
    // The number stands beside the line and not in it, since a line has its place, and only section words are found by number.
    pub fn read_line(&mut self, number: usize, line: &Line) -> Result<(), Declined>
        ensures { Becomes draft_of (in_part self.old.part (draft_of self.old) number (line_of line.now)) self.new result }
    {
        match self.part {
            Part::Start => self.in_start(line),
            Part::Opening => self.in_opening(number, line),
            Part::Agents => self.in_agents(number, line),
            Part::Texts => self.in_texts(number, line),
            Part::Roles => self.in_roles(line),
            Part::Variables => self.in_variables(number, line),
            Part::Steps => self.in_steps(number, line),
            Part::Nonces => self.in_nonces(number, line),
            Part::Known => self.in_known(number, line),
            Part::Claim => self.in_claim(number, line),
            Part::Free => self.in_free(line),
            Part::Ranks => self.in_ranks(line),
            Part::Seals => self.in_seals(line),
            Part::Marks => self.in_marks(line),
            Part::End => Err(line.fault(Rule::Line)),
        }
    }

    // The next section, where the line is its word alone.
    fn open(&mut self, part: Part, word: &[u8], number: usize, line: &Line) -> Result<(), Declined>
        ensures { Becomes draft_of (unless (is_only (line_of line.now) word.now) Misplaced (line_of line.now).place (Ok (opened (draft_of self.old) part number))) self.new result }
    {
        if !line.is_only(word) {
            return Err(line.fault(Rule::Line));
        }
        self.sections.push(number)?;
        self.part = part;
        Ok(())
    }

    fn in_start(&mut self, line: &Line) -> Result<(), Declined>
        ensures { Becomes draft_of (in_start (draft_of self.old) (line_of line.now)) self.new result }
    {
        if line.text != HEADING {
            return Err(line.fault(Rule::Line));
        }
        self.part = Part::Opening;
        Ok(())
    }

    fn in_opening(&mut self, number: usize, line: &Line) -> Result<(), Declined>
        ensures { Becomes draft_of (in_opening (draft_of self.old) number (line_of line.now)) self.new result }
    {
        self.open(Part::Agents, b"agents", number, line)
    }

    #[tactic(auto, unfolding(crate::specs::Kept::cast_of), using(std::proofs::lemmas::List::map_push))]
    fn in_agents(&mut self, number: usize, line: &Line) -> Result<(), Declined>
        ensures { Becomes draft_of (in_agents (draft_of self.old) number (line_of line.now)) self.new result }
    {
        if line.is(0, b"agent") {
            let agent = self.cast.read_agent(line)?;
            self.cast.agents.push(agent)?;
            return Ok(());
        }
        if line.is_only(b"texts") && self.cast.agents.is_empty() {
            return Err(line.fault(Rule::Count));
        }
        self.open(Part::Texts, b"texts", number, line)
    }

    #[tactic(auto, unfolding(crate::specs::Kept::cast_of), using(std::proofs::lemmas::List::map_push))]
    fn in_texts(&mut self, number: usize, line: &Line) -> Result<(), Declined>
        ensures { Becomes draft_of (in_texts (draft_of self.old) number (line_of line.now)) self.new result }
    {
        if line.is(0, b"text") {
            let text = self.cast.read_text(line)?;
            self.cast.texts.push(text)?;
            return Ok(());
        }
        self.open(Part::Roles, b"roles", number, line)
    }

    // A role begins.
    fn begin_role(&mut self, line: &Line) -> Result<(), Declined>
        ensures { Becomes draft_of (role_line (draft_of self.old) (line_of line.now)) self.new result }
    {
        let title = self.cast.read_title(line)?;
        self.script = Script::new(self.heap, title);
        self.part = Part::Variables;
        Ok(())
    }

    fn in_roles(&mut self, line: &Line) -> Result<(), Declined>
        ensures { Becomes draft_of (in_roles (draft_of self.old) (line_of line.now)) self.new result }
    {
        if line.is(0, b"role") {
            if !has_role_shape(line) {
                return Err(line.fault(Rule::Line));
            }
            return self.begin_role(line);
        }
        if line.is_only(b"nonces") {
            return Err(line.fault(Rule::Count));
        }
        Err(line.fault(Rule::Line))
    }

    #[tactic(auto, unfolding(crate::specs::Kept::script_of))]
    fn in_variables(&mut self, number: usize, line: &Line) -> Result<(), Declined>
        ensures { Becomes draft_of (in_variables (draft_of self.old) number (line_of line.now)) self.new result }
    {
        if line.is(0, b"var") {
            let variable = self.script.read_variable(&self.cast, line)?;
            return self.script.variables.add(line.place, variable);
        }
        if line.is(0, b"fresh") {
            let variable = self.script.read_fresh(&self.cast, line)?;
            return self.script.variables.add(line.place, variable);
        }
        self.in_steps(number, line)
    }

    // One step more, with the words of its line in which variables may stand.
    fn add_step(&mut self, step: Step, words: &[Word]) -> Result<(), Declined>
        ensures { Becomes draft_of (Ok (stepped (draft_of self.old) (step_of step) (words_of words.now) (receives (step_of step)))) self.new result }
    {
        self.script.add_step(step, words)?;
        self.part = Part::Steps;
        Ok(())
    }

    fn in_steps(&mut self, number: usize, line: &Line) -> Result<(), Declined>
        ensures { Becomes draft_of (in_steps (draft_of self.old) number (line_of line.now)) self.new result }
    {
        if line.is(0, b"send") {
            let term = self.script.read_term(self.heap, &self.cast, line)?;
            return self.add_step(Step::Send(term), line.from(1));
        }
        if line.is(0, b"recv") {
            let term = self.script.read_term(self.heap, &self.cast, line)?;
            return self.add_step(Step::Receive(term), line.from(1));
        }
        if line.is(0, b"sig") {
            let step = self.script.read_signal(self.heap, &self.cast, line)?;
            return self.add_step(step, line.from(2));
        }
        self.end_role(number, line)
    }

    // The role that was read joins the others.
    #[tactic(auto, unfolding(crate::specs::Kept::cast_of, crate::specs::Kept::script_of), using(std::proofs::lemmas::List::map_push))]
    fn close_role(&mut self) -> Result<(), Declined>
        ensures { Becomes draft_of (closed (draft_of self.old)) self.new result }
    {
        self.script.variables.check()?;
        let script = std::mem::replace(&mut self.script, Script::empty(self.heap));
        self.cast.roles.push(script.into_role())?;
        Ok(())
    }

    // A new role or `nonces`.
    fn end_role(&mut self, number: usize, line: &Line) -> Result<(), Declined>
        ensures { Becomes draft_of (role_end (draft_of self.old) number (line_of line.now)) self.new result }
    {
        if line.is(0, b"role") {
            return self.next_role(line);
        }
        if !line.is_only(b"nonces") {
            return Err(line.fault(Rule::Line));
        }
        if !self.script.has_steps() {
            return Err(line.fault(Rule::Count));
        }
        self.close_role()?;
        self.open(Part::Nonces, b"nonces", number, line)
    }

    // A role after another.
    fn next_role(&mut self, line: &Line) -> Result<(), Declined>
        ensures { Becomes draft_of (next_role (draft_of self.old) (line_of line.now)) self.new result }
    {
        if !has_role_shape(line) {
            return Err(line.fault(Rule::Line));
        }
        if !self.may_end_role() {
            return Err(line.fault(Rule::Count));
        }
        self.close_role()?;
        self.begin_role(line)
    }

    // Whether the role has steps, and another may follow.
    #[tactic(auto, unfolding(crate::specs::Kept::cast_of))]
    fn may_end_role(&self) -> bool
        ensures { result ≡ (nat_lt 0 (length (draft_of self.now).script.steps) && nat_lt (length (draft_of self.now).cast.roles) 3) }
    {
        self.script.has_steps() && self.cast.roles.len() < MOST_CLOSED_ROLES
    }

    #[tactic(auto, unfolding(crate::specs::Kept::cast_of), using(std::proofs::lemmas::List::map_push))]
    fn in_nonces(&mut self, number: usize, line: &Line) -> Result<(), Declined>
        ensures { Becomes draft_of (in_nonces (draft_of self.old) number (line_of line.now)) self.new result }
    {
        if line.is(0, b"nonce") {
            let nonce = self.cast.read_nonce(line)?;
            self.cast.nonces.push(nonce)?;
            return Ok(());
        }
        self.open(Part::Known, b"known", number, line)
    }

    // `know TERM`
    fn read_known(&self, line: &Line) -> Result<Term, Declined>
        ensures { Reads term_of (know_line (draft_of self.now).cast (draft_of self.now).known (line_of line.now)) result }
    {
        if self.known.len() >= MOST_KNOWN {
            return Err(line.fault(Rule::Count));
        }
        read_term(self.heap, &self.cast.scope(), line.place, line.from(1))
    }

    #[tactic(auto, using(std::proofs::lemmas::List::map_push))]
    fn in_known(&mut self, number: usize, line: &Line) -> Result<(), Declined>
        ensures { Becomes draft_of (in_known (draft_of self.old) number (line_of line.now)) self.new result }
    {
        if line.is(0, b"know") {
            let term = self.read_known(line)?;
            self.known.push(term)?;
            return Ok(());
        }
        self.open(Part::Claim, b"claim", number, line)
    }

    // `holds WORD ATOMS needs WORD ATOMS`
    fn read_claim(&self, line: &Line) -> Result<Claim, Declined>
        ensures { Reads claim_of (claim_line (draft_of self.now).cast (draft_of self.now).claim (line_of line.now)) result }
    {
        let needs = find_needs(line);
        if !has_claim_shape(line, needs) {
            return Err(line.fault(Rule::Line));
        }
        if self.claim.is_some() {
            return Err(line.fault(Rule::Count));
        }
        let atoms = needs.ok_or(line.fault(Rule::Line))?;
        read_claim_at(self.heap, &self.cast, line, atoms)
    }

    fn in_claim(&mut self, number: usize, line: &Line) -> Result<(), Declined>
        ensures { Becomes draft_of (in_claim (draft_of self.old) number (line_of line.now)) self.new result }
    {
        if line.is(0, b"holds") {
            let claim = self.read_claim(line)?;
            self.claim = Some(claim);
            return Ok(());
        }
        if line.is_only(b"ranks") && self.claim.is_none() {
            return Err(line.fault(Rule::Count));
        }
        self.open(Part::Free, b"ranks", number, line)
    }

    // A section of the ranks may have no lines, so each of these calls passes what it does not read to the next. Only their frame is one, as in the sections above: each keeps lines of another type, so one call for all would take three closures.
    #[tactic(auto, unfolding(crate::specs::Kept::table_of), using(std::proofs::lemmas::List::map_push))]
    fn in_free(&mut self, line: &Line) -> Result<(), Declined>
        ensures { Becomes draft_of (in_free (draft_of self.old) (line_of line.now)) self.new result }
    {
        if line.is(0, b"free") {
            let variable = self.table.read_free(&self.cast, line)?;
            return self.table.free.add(line.place, variable);
        }
        self.in_ranks(line)
    }

    #[tactic(auto, unfolding(crate::specs::Kept::table_of), using(std::proofs::lemmas::List::map_push))]
    fn in_ranks(&mut self, line: &Line) -> Result<(), Declined>
        ensures { Becomes draft_of (in_ranks (draft_of self.old) (line_of line.now)) self.new result }
    {
        if line.is(0, b"rank") {
            let ranked = self.table.read_rank(&self.cast, line)?;
            self.table.atoms.push(ranked)?;
            self.part = Part::Ranks;
            return Ok(());
        }
        self.in_seals(line)
    }

    #[tactic(auto, unfolding(crate::specs::Kept::table_of), using(std::proofs::lemmas::List::map_push))]
    fn in_seals(&mut self, line: &Line) -> Result<(), Declined>
        ensures { Becomes draft_of (in_seals (draft_of self.old) (line_of line.now)) self.new result }
    {
        if line.is(0, b"seal") {
            let ranked = self.table.read_seal(self.heap, &self.cast, line)?;
            self.table.free.note(line.from(2), true);
            self.table.seals.push(ranked)?;
            self.part = Part::Seals;
            return Ok(());
        }
        self.in_marks(line)
    }

    #[tactic(auto, unfolding(crate::specs::Kept::table_of), using(std::proofs::lemmas::List::map_push))]
    fn in_marks(&mut self, line: &Line) -> Result<(), Declined>
        ensures { Becomes draft_of (in_marks (draft_of self.old) (line_of line.now)) self.new result }
    {
        if line.is(0, b"mark") {
            let ranked = self.table.read_mark(self.heap, &self.cast, line)?;
            self.table.marks.push(ranked)?;
            self.part = Part::Marks;
            return Ok(());
        }
        self.end(line)
    }

    // `back` and the seven line numbers
    #[tactic(auto, unfolding(crate::specs::Kept::table_of))]
    fn check_back(&self, line: &Line) -> Result<(), Declined>
        ensures { Reads (λ u. u) (back_line (draft_of self.now) (line_of line.now)) result }
    {
        if line.len() != 8 {
            return Err(line.fault(Rule::Line));
        }
        self.table.free.check()?;
        if !self.says_sections(line)? {
            return Err(line.fault(Rule::Back));
        }
        Ok(())
    }

    fn says_sections(&self, line: &Line) -> Result<bool, Declined>
        ensures { Reads (λ b. b) (Ok (says_all (line_of line.now) 1 (draft_of self.now).sections)) result }
    {
        says_all(self.heap, line, self.sections.as_slice())
    }

    fn end(&mut self, line: &Line) -> Result<(), Declined>
        ensures { Becomes draft_of (back_or (draft_of self.old) (line_of line.now)) self.new result }
    {
        if !line.is(0, b"back") {
            return Err(line.fault(Rule::Line));
        }
        self.check_back(line)?;
        self.part = Part::End;
        Ok(())
    }
}

// Whether the word at `i` is this number.
fn says(heap: Global, line: &Line, i: usize, number: usize) -> Result<bool, Declined>
    ensures { Reads (λ b. b) (Ok (is (line_of line.now) i (decimal number))) result }
{
    let digits = format!(in heap; "{number}")?;
    Ok(line.is(i, digits.as_bytes()))
}

// Whether the words after the first are these numbers.
fn says_all(heap: Global, line: &Line, numbers: &[usize]) -> Result<bool, Declined>
    ensures { Reads (λ b. b) (Ok (says_all (line_of line.now) 1 numbers.now)) result }
{
    // By index and not by pairs, since a word that is missing says no number.
    for (i, number) in numbers.iter().enumerate() {
        let said = says(heap, line, i + 1, *number)?;
        if !said {
            return Ok(false);
        }
    }
    Ok(true)
}
