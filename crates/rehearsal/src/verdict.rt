// A verdict on a sheet as it is told: the condition that fails, its place, and the least values for which it fails, by their names.
use super::told::ToldAtom;
use checker::Verdict;
use message::Atom;
use model::Variable;
use sheet::Contents;
use std::fmt;

// The verdict on a sheet that says this.
#[derive(Clone, Copy)]
pub struct ToldVerdict<'a> {
    pub contents: &'a Contents,
    pub verdict: &'a Verdict,
}

impl<'a> ToldVerdict<'a> {
    // A line for each variable that stands for something.
    fn write_values<W: fmt::Write>(
        &self,
        f: &mut fmt::Formatter<W>,
        variables: &[Variable],
        values: &[Option<Atom>],
    ) -> fmt::Result {
        for (variable, value) in variables.iter().zip(values.iter()) {
            if let Some(atom) = *value {
                let contents = self.contents;
                write!(f, "\n{} {}", variable.name, ToldAtom { contents, atom })?;
            }
        }
        Ok(())
    }

    // The fourth condition's place and instance. A verdict of another sheet may name a role that this one has not.
    fn write_step<W: fmt::Write>(
        &self,
        f: &mut fmt::Formatter<W>,
        role: usize,
        step: usize,
        agent: u8,
        values: &[Option<Atom>],
    ) -> fmt::Result {
        let contents = self.contents;
        let Some(role) = contents.roles().get(role) else {
            return f.write_str("declined 4");
        };
        write!(f, "declined 4 {} {}", role.name, step.saturating_add(1))?;
        let atom = Atom::Agent(agent);
        write!(f, "\nself {}", ToldAtom { contents, atom })?;
        self.write_values(f, role.variables.as_slice(), values)
    }
}

impl<'a> fmt::Display for ToldVerdict<'a> {
    fn fmt<W: fmt::Write>(&self, f: &mut fmt::Formatter<W>) -> fmt::Result {
        match self.verdict {
            Verdict::Accepted => f.write_str("accepted"),
            Verdict::Known { line } => {
                write!(f, "declined 1 line {}", self.contents.know_line(*line))
            }
            Verdict::Ranked { line } => {
                write!(f, "declined 1 line {}", self.contents.rank_line(*line))
            }
            Verdict::Sealed { line, values } => {
                write!(f, "declined 2 line {}", self.contents.seal_line(*line))?;
                self.write_values(f, self.contents.free(), values.as_slice())
            }
            Verdict::Completed => f.write_str("declined 3"),
            Verdict::Acted {
                role,
                step,
                agent,
                values,
            } => self.write_step(f, *role, *step, *agent, values.as_slice()),
        }
    }
}
