// In which line of its text a part of a sheet stands, counted from 1. No text has so many lines that a number here is not exact.
ghost use Rattle.std.specs.Prelude.{◌≡◌, ◌+◌, ◌^◌, ◌-◌, length, map, min};
ghost use Rattle.model.specs.LineNumbers.{know_line, known_line, rank_line, ranks_line, role_lines, seal_line};
ghost use Rattle.model.specs.Stored.{role_of};
ghost use Rattle.sheet.specs.Kept.{contents_of};

use super::contents::Contents;
use model::Role;

// A line for the role's name, one for each variable and one for each step.
fn lines_of(role: &Role) -> usize
    ensures { result ≡ min (1 + length (role_of role.now).variables + length (role_of role.now).steps) (2 ^ 64 - 1) }
{
    1usize
        .saturating_add(role.variables.len())
        .saturating_add(role.steps.len())
}

fn lines_of_all(roles: &[Role]) -> usize
    ensures { result ≡ min (role_lines (map role_of roles.now)) (2 ^ 64 - 1) }
{
    let mut lines = 0usize;
    for role in roles {
        lines = lines.saturating_add(lines_of(role));
    }
    lines
}

impl Contents {
    // The line of the section word `known`.
    fn known_line(&self) -> usize
        ensures { result ≡ min (known_line (contents_of self.now)) (2 ^ 64 - 1) }
    {
        6usize
            .saturating_add(self.agents().len())
            .saturating_add(self.texts().len())
            .saturating_add(lines_of_all(self.roles()))
            .saturating_add(self.nonces().len())
    }

    // The line of the section word `ranks`.
    fn ranks_line(&self) -> usize
        ensures { result ≡ min (ranks_line (contents_of self.now)) (2 ^ 64 - 1) }
    {
        self.known_line()
            .saturating_add(self.known().len())
            .saturating_add(3)
    }

    // The line of the `know` line of this number, counted from 0.
    pub fn know_line(&self, i: usize) -> usize
        ensures { result ≡ min (know_line (contents_of self.now) i) (2 ^ 64 - 1) }
    {
        self.known_line().saturating_add(1).saturating_add(i)
    }

    // The line of the `rank` line of this number.
    pub fn rank_line(&self, i: usize) -> usize
        ensures { result ≡ min (rank_line (contents_of self.now) i) (2 ^ 64 - 1) }
    {
        self.ranks_line()
            .saturating_add(1)
            .saturating_add(self.free().len())
            .saturating_add(i)
    }

    // The line of the `seal` line of this number.
    pub fn seal_line(&self, i: usize) -> usize
        ensures { result ≡ min (seal_line (contents_of self.now) i) (2 ^ 64 - 1) }
    {
        self.rank_line(i).saturating_add(self.atoms().len())
    }
}
