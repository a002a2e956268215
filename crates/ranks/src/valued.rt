// Whether a scale has the ranks that a sheet's lines give.
ghost use Rattle.std.specs.Prelude.{◌≡◌, Decides};
ghost use Rattle.std.specs.List.{list_all};
ghost use Rattle.ranks.specs.Ranks.{Valued};
ghost use Rattle.sheet.specs.Kept.{contents_of};

use model::Ranked;
use scale::Scale;
use sheet::Contents;

fn are_valued<S: Scale, T>(lines: &[Ranked<T>]) -> bool
    ensures { result ≡ list_all (λ l. S.meaning.has l.rank) lines.now }
{
    lines.iter().all(|line| S::has(line.rank))
}

// Whether every rank that a line of the sheet gives is one of the scale's values.
pub fn is_valued<S: Scale>(contents: &Contents) -> bool
    ensures { Decides result (Valued S.meaning (contents_of contents.now)) }
{
    are_valued::<S, _>(contents.atoms())
        && (are_valued::<S, _>(contents.seals()) && are_valued::<S, _>(contents.marks()))
}
