// Cases worked by hand: what is to be answered of some sheets follows from the definitions.
#![tactic(auto)]

ghost use Rattle.worked.specs.Worked.{WorkedCases};

// The cases hold together.
#[tactic(auto, using(crate::proofs::Worked::worked_cases))]
pub fn worked_cases_hold()
    ensures { WorkedCases }
{}
