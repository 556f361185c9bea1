// Worked cases, as one statement about the definitions that the contracts cite.
#![tactic(auto)]

ghost use Rattle.cases.specs.Cases.{Cases};

// Each worked case follows from the rules.
pub fn cases_hold()
    ensures { Cases }
{}
