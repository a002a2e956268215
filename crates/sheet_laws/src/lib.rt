// Laws of reading a sheet.
#![tactic(auto)]

ghost use Rattle.sheet_laws.specs.Claims.{ClaimsOfTwoEvents};
ghost use Rattle.sheet_laws.specs.Counts.{CountsInRange};
ghost use Rattle.sheet_laws.specs.Messages.{InstancesAreMessages, StartIsMessages};
ghost use Rattle.sheet_laws.specs.NamesApart.{NamesAreApart};
ghost use Rattle.sheet_laws.specs.Numbering.{LinesNumbered};
ghost use Rattle.sheet_laws.specs.Places.{FaultsWithin};
ghost use Rattle.sheet_laws.specs.References.{NamesRefer};
ghost use Rattle.sheet_laws.specs.Signals.{SignalsFormed};
ghost use Rattle.sheet_laws.specs.TermsShort.{TermsAreShort};
ghost use Rattle.sheet_laws.specs.VariablesUsed.{VariablesAreUsed};

// A fault lies in the text or at its end.
#[tactic(auto, using(crate::proofs::Places::faults_within))]
pub fn faults_lie_within()
    ensures { FaultsWithin }
{}

// Each count of a sheet that is read is in its range.
pub fn counts_lie_in_range()
    ensures { CountsInRange }
{}

// The names of a sheet that is read are apart.
pub fn names_are_apart()
    ensures { NamesAreApart }
{}

// The signals of a sheet that is read have a name for a word and one to four atoms.
pub fn signals_are_formed()
    ensures { SignalsFormed }
{}

// The lines of a text that is read have the numbers that are computed from its sheet.
#[tactic(auto, using(crate::proofs::Numbering::lines_numbered))]
pub fn lines_are_numbered()
    ensures { LinesNumbered }
{}

// The names in a sheet that is read refer to something that it declares, and of the right kind.
#[tactic(auto, using(crate::proofs::References::names_refer))]
pub fn names_refer()
    ensures { NamesRefer }
{}

// The terms of a sheet that is read have at most 32 words.
#[tactic(auto, using(crate::proofs::Shortening::terms_short))]
pub fn terms_are_short()
    ensures { TermsAreShort }
{}

// In every instance of a role of a sheet that is read, what its steps send and receive are messages.
pub fn instances_are_messages()
    ensures { InstancesAreMessages }
{}

// What the enemy knows at the start are messages.
#[tactic(auto, using(crate::proofs::Messaging::start_is_messages))]
pub fn start_is_messages()
    ensures { StartIsMessages }
{}

// The variables of a sheet that is read stand somewhere, and a nonce that is not the session's own is first received.
#[tactic(auto, using(crate::proofs::VariablesUsed::variables_used))]
pub fn variables_are_used()
    ensures { VariablesAreUsed }
{}

// No event is both the completion and the needed one in the claim of a sheet that is read.
#[tactic(auto, using(crate::proofs::Claiming::claims_of_two_events))]
pub fn claims_are_of_two_events()
    ensures { ClaimsOfTwoEvents }
{}
