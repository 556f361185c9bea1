// What Read has to do with the grammar: each law is the contract of a function.
ghost use Rattle.reader.specs.Laws.{Meant, Complete, Exact};

// What Read accepts, the grammar derives; and a refusal means what it says.
pub fn read_means_what_it_says()
    ensures { Meant }
{}

// A text whose words the grammar derives, within the limits, is accepted, with the nodes of that tree.
pub fn read_is_complete()
    ensures { Complete }
{}

// Where a refusal of the words is meant, it is told.
pub fn faults_are_exact()
    ensures { Exact }
{}
