// What the commands are for, and how they are called.

pub const USAGE: &str = "pico reads, checks, packs and plays PICO sheets.

  pico words FILE          lists the words of a sheet: line, column, place, kind, spelling
  pico words --count FILE  only counts them
  pico read FILE           shows a sheet's declarations, nodes and tree
  pico check FILE          says whether a sheet or a card would load
  pico pack SHEET CARD     writes a sheet's card
  pico show CARD           shows a card's declarations, nodes and tree
  pico play FILE           plays a sheet or a card, and shows beats, status and variables
      --beats N            at most N beats (1000000)
      --grant G            in portions of G beats, each shown
      --trace              shows each beat with what it changed
      --room R             on a packed shelf with room for R bytes of text
      --calls 'play 7, look a, rewind'   plays a script of calls instead
  pico batch FILE          runs the commands in a file, one to a line
  pico help COMMAND        says more about a command
  pico help                shows this

A FILE named - is the standard input. A card is told from a text by its ending .card, or by --card before it.
A fault is shown with its place and its number, and the status is then 1.
";

const WORDS: &str = "pico words FILE
pico words --count FILE

Lists the words of a text, one to a line: line and column from 1, place in bytes from 0, kind, spelling;
then how many there are. With --count it prints only the number. The text may have any length.
A word that is refused ends the list; its line is shown with a caret under the place.

  $ pico words sheets/title.pico
  $ echo 'a := 1' | pico words -
";

const READ: &str = "pico read FILE

Reads a sheet and shows its declarations, its nodes in their order with kind and fields, and its tree.
Names and kinds are not checked: pico check does that.

  $ pico read sheets/encore.pico
";

const CHECK: &str = "pico check FILE
pico check --card FILE

Says whether a sheet or a card would load, and with how many nodes, variables and letters; or shows the
first fault: its number, what it means, and the line that it stands in. A file whose name ends in .card is
a card; --card says so of any other.

  $ pico check sheets/nested.pico
  $ pico check title.card
";

const PACK: &str = "pico pack SHEET CARD

Reads and checks the file SHEET and writes its card to the file CARD, which is replaced if it is there.
Nothing is written if the sheet is refused.

  $ pico pack sheets/title.pico title.card
";

const SHOW: &str = "pico show CARD

Unpacks a card, checks it, and shows its declarations, nodes and tree as pico read does of a text.

  $ pico show title.card
";

const PLAY: &str = "pico play [OPTIONS] FILE

Plays a sheet or a card and shows how many beats it made, how it stands then, and each variable as the screen
would show it. A stop is shown with its number, what it means and the statement's line.

  --beats N     at most N beats; 1000000 if it is not said. A sheet that goes on after them is said to be ready
  --grant G     grants the beats in portions of G, 1 to 65535, and shows each
  --trace       shows each beat with what it changed
  --room R      plays on a packed shelf with R bytes of room, 5120 at the most, instead of rows
  --card        the file is a card, whatever its name
  --calls LIST  plays a script through one call: play N, look NAME and rewind, with commas between;
                a colon may stand for the space: play:7,look:a,rewind

  $ pico play sheets/medley.pico
  $ pico play --trace sheets/chorus.pico
  $ pico play --calls 'play 2, look verse, rewind, play 100, look line' sheets/verse.pico
";

const BATCH: &str = "pico batch FILE

Runs the commands in FILE, one to a line and without the word pico, each after a line that repeats it.
A command that is refused does not end the batch: 'refused' is printed, and the next one follows.

  $ pico batch commands
";

const HELP: &str = "pico help
pico help COMMAND

Lists the commands, or says more about one: words, read, check, pack, show, play, batch.
";

// What is said about a command, if there is one of that name.
pub fn about(command: &str) -> Option<&'static str> {
    match command {
        "words" => Some(WORDS),
        "read" => Some(READ),
        "check" => Some(CHECK),
        "pack" => Some(PACK),
        "show" => Some(SHOW),
        "play" => Some(PLAY),
        "batch" => Some(BATCH),
        "help" => Some(HELP),
        _ => None,
    }
}
