// The grammar of sheets, and what reading word by word has to do with it: each law is the contract of a function.
#![tactic(auto)]

ghost use Rattle.grammar.specs.Laws.{Sound, Complete, Unambiguous, Faults, Exact};

// What reading accepts, the rules of the grammar derive.
pub fn reading_is_sound()
    ensures { Sound }
{}

// What the rules derive, reading accepts, with that tree.
pub fn reading_is_complete()
    ensures { Complete }
{}

// No sheet has two trees.
pub fn grammar_is_unambiguous()
    ensures { Unambiguous }
{}

// A refusal says of the words what it stands for.
pub fn faults_mean_what_they_say()
    ensures { Faults }
{}

// And where that holds, no other refusal is told.
pub fn faults_are_exact()
    ensures { Exact }
{}
