// What may stand at a place of a row.
ghost use Rattle.std.specs.Prelude.{◌≡◌, min, ◌+◌, ◌↔◌, IsTrue};
ghost use Rattle.message.specs.Message.{size};
ghost use Rattle.search.specs.Canonical.{past};
ghost use Rattle.search.specs.Rows.{Fits, count};

use message::Kind;

// A number for each kind. Those below it have a name, or are used already.
#[derive(Clone, Copy)]
pub struct Counts {
    pub agents: usize,
    pub nonces: usize,
    pub texts: usize,
}

impl Counts {
    // The number for a kind.
    pub(super) fn of(self, kind: Kind) -> usize
        ensures { result ≡ count self kind }
    {
        match kind {
            Kind::Agent => self.agents,
            Kind::Nonce => self.nonces,
            Kind::Text => self.texts,
        }
    }

    // What they are once a number of the kind is used.
    pub(super) fn past(self, kind: Kind, number: u16) -> Counts
        ensures { result ≡ past self kind number }
    {
        let after = usize::from(number) + 1;
        match kind {
            Kind::Agent => Counts {
                agents: self.agents.max(after),
                ..self
            },
            Kind::Nonce => Counts {
                nonces: self.nonces.max(after),
                ..self
            },
            Kind::Text => Counts {
                texts: self.texts.max(after),
                ..self
            },
        }
    }
}

// The last number that is tried for a kind, if every number below is used: the first one that is not, if there is one.
pub(super) fn last_tried(next: Counts, kind: Kind) -> u16
    ensures { result ≡ min (count next kind) 65535 }
{
    u16::try_from(next.of(kind)).unwrap_or(u16::MAX)
}

// Which numbers of a kind may stand at a place: a flag for each that has a name, and one for all others.
#[derive(Clone, Copy)]
pub struct Place<'a> {
    pub kind: Kind,
    pub named: &'a [bool],
    pub strangers: bool,
}

// The greatest number of a kind.
fn greatest(kind: Kind) -> u16
    ensures { result + 1 ≡ size kind }
{
    match kind {
        Kind::Agent => 255,
        Kind::Nonce | Kind::Text => u16::MAX,
    }
}

impl Place<'_> {
    // Whether the number may stand here, where so many have a name.
    pub(super) fn takes(&self, named: Counts, number: u16) -> bool
        ensures { IsTrue result ↔ Fits named self.now number }
    {
        let index = usize::from(number);
        number <= greatest(self.kind)
            && if index < named.of(self.kind) {
                self.named.get(index) == Some(&true)
            } else {
                self.strangers
            }
    }
}
