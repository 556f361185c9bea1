// That the semantics agrees with the language's own rules of evaluation, and the law over any succession of calls.
ghost use Rattle.semantics.specs.Law.{Law};
ghost use Rattle.semantics.specs.Next.{NextIsTold};
ghost use Rattle.semantics.specs.Report.{Deterministic, Agreement, Converse};

// Two evaluations of one series from the same values end in the same values.
pub fn evaluation_is_deterministic()
    ensures { Deterministic }
{}

// What the semantics ends with is what the sheet evaluates to.
pub fn semantics_agrees()
    ensures { Agreement }
{}

// What the sheet evaluates to is what the semantics ends with, unless a limit stops it.
pub fn evaluation_is_reached()
    ensures { Converse }
{}

// The law over any succession of calls.
pub fn law_holds()
    ensures { Law }
{}

// The statement that comes next is the one that is told, and a beat that stops stops there.
pub fn next_statement_is_told()
    ensures { NextIsTold }
{}
