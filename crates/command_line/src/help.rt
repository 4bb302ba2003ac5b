//! The pages of help.

use bundles::Command;

/// What a call without words on a terminal gets.
pub(crate) const SHORT_HELP: &str = "\
usage: pmseq verify BOARD PROGRAM
pmseq --help has the other commands; pmseq - reads a bundle from standard input
";

/// The page of help.
pub(crate) const HELP: &str = "\
pmseq judges controller programs that bring up a board's supply rails over PMBus, before they
meet the board.

    pmseq draft BOARD [PLAN]            writes a program that brings up a board, and is accepted
    pmseq verify BOARD PROGRAM          judges a program, and finds the facts that it needs
    pmseq find BOARD PROGRAM            prints the table of facts that verify finds
    pmseq check BOARD PROGRAM TABLE     judges a program with a table of facts
    pmseq refute BOARD PROGRAM          searches for a run in which a program does harm
    pmseq run BOARD PROGRAM [ANSWERS]   runs a program on a simulated bus, and prints a trace
    pmseq wave BOARD PROGRAM [ANSWERS]  the same, and prints the levels of the bus as a waveform
    pmseq play BOARD PROGRAM [SEED]     prints answers under which a program runs to its end
    pmseq frame MESSAGE                 sends one message, and prints its frame
    pmseq explain K5                    explains a rule, or a fault by its name
    pmseq COMMAND --help                explains a command
    pmseq COMMAND --sarif FILES         tells its notes as a log of SARIF, for code scanning
    pmseq verify --bound FILES          tells where the ticks of an accepted program's bound go
    pmseq --version                     tells which build this is
    pmseq -                             does what a bundle on standard input asks for
    pmseq build                         proves and builds pmseq itself

BOARD, PLAN, PROGRAM, TABLE, ANSWERS and MESSAGE are files; one of them may be -, standard input.
SEED is a number; without ANSWERS, run and wave play a run, that of `--seed N` or the plain one.

verify and check print `accepted bound N`: whatever the targets answer within the board's ranges,
the program ends within N ticks of 5 microseconds with both lines high, sends only what the board
allows, writes nothing that is protected, commands no voltage over its limit, and enables no rail
before its needs reported good. Or they print `refused place P rule K`: what the instruction of
place P (the first is 0) does isn't known to be safe, by a rule of docs/RULES.md. Where no counter
bounds a loop, verify and find print `gave up place P`. refute prints a run in which an instruction
breaks a rule, or `no run found`, which doesn't say that there is none.

`accepted` doesn't say that
    a need's own needs are still on, or that a rail had a voltage before it was enabled
    a page without a [[rail]] is safe: it has no limit and no needs
    power stays good: a report doesn't age, and no later fault takes it back
    `fail` turns anything off, or `end` protects anything
    VOUT_MAX or the limits of faults and warnings are below `limit_uv`
docs/RULES.md has a program for each.

Notes on standard error say what to mend, at a file's line. Exit status: 0 done, and by verify and
check accepted; 1 refused, the search gave up, or no run was found; 2 a fault in a file, or a word
or a file that isn't known; 3 where memory, reading or writing failed, and nothing was judged.
";

const DRAFT: &str = "\
pmseq draft BOARD [PLAN]

Writes a program that brings up a board's rails, each behind those that it needs, and turns them
off in the reverse order where something fails. It is judged before it is printed: only a program
that is accepted is, with its bound in the first line (status 0). Otherwise a fault tells why there
is none (status 2). The lines of PLAN are wishes, each in a line of its own:

    voltage RAIL 1.05V     commands a voltage, or a mantissa, before the rail is turned on
    retries N              tries a message N times more where it isn't done (3); `retries RAIL N`
    poll TICKS N           asks for STATUS_WORD N times, TICKS apart (200 50); `poll RAIL 1ms 50`
    order RAIL RAIL        turns on the first before the second
    clear TARGET           sends CLEAR_FAULTS before a rail of it is turned on
    protect TARGET 80      writes WRITE_PROTECT at the end

docs/DRAFT.md has an example.
";

const VERIFY: &str = "\
pmseq verify BOARD PROGRAM

Finds what is known at each place of a program on a board, and judges the program with it.
Prints `accepted bound N` (status 0), `refused place P rule K` or `gave up place P` (status 1).

    pmseq verify examples/boards/two_rails.toml examples/programs/bring_up.txt

With --bound, standard error tells where the ticks of the bound go: the loops of the dearest way,
with their turns.

docs/BOARD.md and docs/PROGRAM.md say how the files are written, docs/RULES.md what the rules ask.
";

const FIND: &str = "\
pmseq find BOARD PROGRAM

Prints the table of facts that `pmseq verify` finds, for `pmseq check`, or `gave up place P`.

    pmseq find examples/boards/two_rails.toml examples/programs/bring_up.txt > table.txt

docs/SEARCH.md says what is found and what isn't.
";

const CHECK: &str = "\
pmseq check BOARD PROGRAM TABLE

Judges a program with a table of facts, which `pmseq find` made or a person wrote.
Prints `accepted bound N` (status 0) or `refused place P rule K` (status 1).

docs/TABLES.md says how a table is written, docs/RULES.md what the rules ask.
";

const REFUTE: &str = "\
pmseq refute BOARD PROGRAM

Searches for a run in which an instruction breaks a rule from K1 to K5, whatever the targets have to
answer for it within the board's ranges. Prints `# place P rule K` and the answers up to that step,
which `pmseq run` takes (status 0), or `no run found` (status 1). Of an accepted program there is no
such run. Of a refused one there may be a run that isn't found.

    pmseq refute examples/boards/two_rails.toml examples/programs/bring_up_wrong.txt > harm.txt
    pmseq run examples/boards/two_rails.toml examples/programs/bring_up_wrong.txt harm.txt

docs/SIMULATOR.md says which answers are tried.
";

const PLAY: &str = "\
pmseq play BOARD PROGRAM [SEED]

Prints the answers of a run to its end, which `pmseq run` takes. Seed 0, or none, is the plain run:
each message is done, STATUS_WORD reports good, and all else reads the least that the board allows.
Any other seed draws refusals, holds, values and alerts from all that the board allows; the same
seed plays the same run.

    pmseq play examples/boards/two_rails.toml examples/programs/bring_up.txt 7

docs/SIMULATOR.md says what is drawn.
";

const RUN: &str = "\
pmseq run BOARD PROGRAM [ANSWERS]

Runs a program on a simulated bus whose targets answer as ANSWERS says, and prints a line for each
step: its place, its ticks of 5 microseconds, its frame, and how it ended. Nothing is refused; a
warning tells the first step that no accepted program takes.

Without ANSWERS the targets answer as `pmseq play` has them answer, in the plain run or in that of
another seed:

    pmseq run examples/boards/two_rails.toml examples/programs/bring_up.txt --seed 7

docs/SIMULATOR.md says how answers are written.
";

const WAVE: &str = "\
pmseq wave BOARD PROGRAM [ANSWERS]

Runs a program as `pmseq run` does, and prints the levels of SCL, SDA and SMBALERT as a Value
Change Dump, which GTKWave, PulseView and sigrok-cli open. Without ANSWERS a run is played, that of
`--seed N` or the plain one.

    pmseq wave BOARD PROGRAM ANSWERS > run.vcd
";

const FRAME: &str = "\
pmseq frame MESSAGE

Sends one message over a bus with one controller, and prints its frame as an observer of the lines
reads it, its samples, and how it ended. MESSAGE holds one line, such as

    form=writebyte address=40 code=00 out=01

docs/BUNDLES.md has all words of a message.
";

/// The page of help on a command.
pub(crate) fn page_of(command: Command) -> &'static str {
    match command {
        Command::Draft => DRAFT,
        Command::Verify => VERIFY,
        Command::Find => FIND,
        Command::Check => CHECK,
        Command::Run => RUN,
        Command::Wave => WAVE,
        Command::Frame => FRAME,
        Command::Play => PLAY,
        Command::Refute => REFUTE,
    }
}

/// The files that a command takes, as its page names them.
pub(crate) fn names_of(command: Command) -> &'static str {
    match command {
        Command::Draft => "BOARD [PLAN]",
        Command::Verify | Command::Find | Command::Refute => "BOARD PROGRAM",
        Command::Check => "BOARD PROGRAM TABLE",
        Command::Run | Command::Wave => "BOARD PROGRAM [ANSWERS]",
        Command::Play => "BOARD PROGRAM [SEED]",
        Command::Frame => "MESSAGE",
    }
}
