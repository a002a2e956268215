// Laws of what the check answers.
ghost use Rattle.checker.specs.Laws.{OneVerdict, SomeVerdict};

use scale::Scale;

// At most one verdict of a sheet is right.
#[tactic(auto, using(crate::proofs::OneVerdict::one_verdict))]
pub fn one_verdict_is_right<S: Scale>()
    ensures { OneVerdict S.meaning }
{}

// Some verdict of every sheet is right.
#[tactic(auto, using(crate::proofs::SomeVerdict::some_verdict))]
pub fn some_verdict_is_right<S: Scale>()
    ensures { SomeVerdict S.meaning }
{}
