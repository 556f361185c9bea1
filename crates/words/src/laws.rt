// What holds of the scanner, in the words of the language: each law is the contract of a function.
ghost use Rattle.words.specs.Examples.{Examples};
ghost use Rattle.words.specs.Laws.{Longest, NoKeyword, MakesUp, Ends};

// The longest word is taken, behind layout alone.
pub fn longest_word_is_taken()
    ensures { Longest }
{}

pub fn names_are_no_keywords()
    ensures { NoKeyword }
{}

pub fn words_make_up_the_text()
    ensures { MakesUp }
{}

pub fn reading_ends()
    ensures { Ends }
{}

// Worked examples.
pub fn examples_hold()
    ensures { Examples }
{}
