// The ranks that wait while a message is read from its end.
ghost use Rattle.std.specs.Prelude.{◌≡◌, ◌<◌, ◌≤◌, [], ◌∷◌, length};
ghost use Rattle.ranks.specs.Stacks.{Pops};

use std::marker::Model;

// No message has more nodes than bytes.
pub const MOST: usize = 96;

// At most 96 ranks, the last one on top.
#[derive(Drop)]
pub struct Stack {
    ranks: [i16; MOST],
    len: usize,
}

// Clauses see the ranks that it holds, the last one first.
impl Model for Stack {
    ghost use Rattle.std.specs.Prelude.{◌≤◌, List, ℤ};
    ghost use Rattle.ranks.specs.Stacks.{tops};

    ghost Value = { List ℤ };

    ghost view = { λ s. tops s.ranks s.len };

    ghost invariant = { λ s. s.len ≤ 96 };
}

impl Stack {
    pub fn new() -> Stack
        ensures { result ≡ [] }
    {
        Stack {
            ranks: [0; MOST],
            len: 0,
        }
    }

    #[tactic(auto, using(crate::proofs::Stacking::tops_push))]
    pub fn push(&mut self, rank: i16)
        requires { length self.old < 96 }
        ensures { self.new ≡ rank ∷ self.old }
    {
        self.ranks[self.len] = rank;
        self.len += 1;
    }

    pub fn pop(&mut self) -> Option<i16>
        ensures { Pops self.old result self.new }
    {
        self.len = self.len.checked_sub(1)?;
        Some(self.ranks[self.len])
    }
}
