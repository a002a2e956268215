// The search for the least row that breaks a test.
ghost use Rattle.std.specs.Prelude.{ℕ, ◌++◌, List, IfOk, IsTrue, ◌↔◌};
ghost use Rattle.search.specs.declared.place.Counts.{Counts};
ghost use Rattle.search.specs.declared.place.Place.{Place};
ghost use Rattle.search.specs.Canonical.{Extends, Tried};
ghost use Rattle.search.specs.Exchange.{Invariant};
ghost use Rattle.search.specs.Laws.{CanonicalIsLeast, CanonicalSuffices, MeetsStrangers};
ghost use Rattle.search.specs.Rows.{Breaking, Finds};

use super::place::{Counts, Place, last_tried};
use std::alloc::{AllocError, Global};

// What rows of numbers are put to.
pub trait Test {
    // Whether a row breaks the test.
    ghost broken: { Self → List ℕ → Type 0 };

    // For which names and places it tells no two strangers apart. It may say just that, and then `suited` is the identity.
    ghost suits: { Self → Counts → List Place → Type 0 };

    ghost suited: { (test : Self) (named : Counts) (places : List Place) → suits test named places → Invariant named places (broken test) };

    fn breaks(&self, row: &[u16]) -> bool
        ensures { IsTrue result ↔ broken self.now row.now };
}

// Looks for the least end of the row with which it is tried and breaks the test. The row is as before if there is none.
fn extend<T: Test>(
    test: &T,
    named: Counts,
    places: &[Place],
    next: Counts,
    row: &mut Vec<u16>,
) -> Result<bool, AllocError>
    ensures { IfOk result (λ found. Extends found (Tried named next places.now (λ ys. T.broken test.now (row.old.items ++ ys))) row.old.items row.new.items) }
{
    let Some((place, rest)) = places.split_first() else {
        return Ok(test.breaks(row));
    };
    let last = last_tried(next, place.kind);
    for number in 0..=last {
        if place.takes(named, number) {
            row.push(number)?;
            if extend(test, named, rest, next.past(place.kind, number), row)? {
                return Ok(true);
            }
            row.pop();
        }
    }
    Ok(false)
}

// The least row, of all that are allowed, that breaks the test; none if none does.
pub fn least<T: Test>(
    alloc: Global,
    test: &T,
    named: Counts,
    places: &[Place],
) -> Result<Option<Vec<u16>>, AllocError>
    // Whatever the test is, the least of the rows that are tried is found.
    ensures tried { IfOk result (Finds (Tried named named places.now (T.broken test.now))) }
    ensures all { T.suits test.now named places.now → IfOk result (Finds (Breaking named places.now (T.broken test.now))) }
{
    let mut row = Vec::new(alloc);
    if extend(test, named, places, named, &mut row)? {
        Ok(Some(row))
    } else {
        Ok(None)
    }
}

// Why rows that are not canonical need not be tried, if the test suits.
pub fn canonical_suffices<T: Test>(test: &T, named: Counts, places: &[Place])
    ensures suffices { T.suits test.now named places.now → CanonicalSuffices named places.now (T.broken test.now) }
    ensures least { T.suits test.now named places.now → CanonicalIsLeast named places.now (T.broken test.now) }
{}

// As many strangers are tried together as there are places for them.
#[tactic(auto, using(crate::proofs::Newcomers::newcomers_tried))]
pub fn strangers_are_met()
    ensures { MeetsStrangers }
{}
