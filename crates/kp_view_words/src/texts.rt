// The texts of help, usage and version. Each ends with a line feed.
ghost use Rattle.std.specs.Prelude.{◌≡◌};
ghost use Rattle.kp_view_words.specs.Texts.{help_text, usage_text, version_text};

use crate::words::{Topic, Word};

/// The version of the program, which the file VERSION at the top has too.
pub const VERSION: &str = "kpview 0.10.0\n";

/// How the program is called.
pub const USAGE: &str = "usage: kpview diagram N [NAMES] [--label L,L [--listing FILE]] [FILE]
       kpview svg N [NAMES] [FILE]
       kpview page N [NAMES] [FILE]
       kpview paths [--svg] [NAMES] [FILE]
       kpview stalls N [NAMES] [FILE]
       kpview depth [--files 0] [FILE]
       kpview same FILE FILE
       kpview explain [--werror] [FILE]
       kpview explain read|watch|asm|debug [FILE]
       kpview --help
";

/// How `diagram` is called.
pub const USAGE_DIAGRAM: &str =
    "usage: kpview diagram N [NAMES] [--label L,L [--listing FILE]] [FILE]
N is 0 to 1000, or FROM..TO: the cycles FROM to TO, at most 1000 of them, where
TO is at most 1000000000; a name has 1 to 8 letters, digits or `_`; a label is a
register, a pipe, a result or a word as F[0]
";

/// How `svg` is called.
pub const USAGE_SVG: &str = "usage: kpview svg N [NAMES] [FILE]
N is 0 to 1000; a name has 1 to 8 letters, digits or `_`
";

/// How `page` is called.
pub const USAGE_PAGE: &str = "usage: kpview page N [NAMES] [FILE]
N is 0 to 1000; a name has 1 to 8 letters, digits or `_`
";

/// How `paths` is called.
pub const USAGE_PATHS: &str = "usage: kpview paths [--svg] [NAMES] [FILE]
a name has 1 to 8 letters, digits or `_`
";

/// How `stalls` is called.
pub const USAGE_STALLS: &str = "usage: kpview stalls N [NAMES] [FILE]
N is 0 to 100000; a name has 1 to 8 letters, digits or `_`
";

/// How `depth` is called.
pub const USAGE_DEPTH: &str = "usage: kpview depth [--files 0] [FILE]
";

/// How `same` is called.
pub const USAGE_SAME: &str = "usage: kpview same FILE FILE
one of the files may be `-`, standard input
";

/// The help of the program.
pub const HELP: &str = "Draws how instructions move through the pipelined machine of a kp job.

usage: kpview WORD .. [FILE]

words:
  diagram N [NAMES] [--label L,L [--listing FILE]] [FILE]
                             N cycles of the pipeline, as text
  svg N [NAMES] [FILE]       the same as a picture
  page N [NAMES] [FILE]      the same as an HTML page, with the states
  paths [--svg] [NAMES] [FILE]
                             where each read takes its value from
  stalls N [NAMES] [FILE]    why instructions wait or are squashed
  depth [--files 0] [FILE]   the longest path of each stage
  same FILE FILE             whether two jobs describe the same instruction
  explain [--werror] [FILE]  why the job is rejected, and warnings
  explain read|watch|asm|debug [FILE]
                             why another input of kp is rejected

The job is read from FILE, or from standard input.

options:
  -h, --help      print this help, or that of a word: kpview diagram --help
  -V, --version   print the version

status: 0 done, 1 wrong words, 2 the job violates a rule, 3 reading failed,
4 writing failed, 5 out of memory, 7 not shown to be the same
";

/// The help of `diagram`.
pub const HELP_DIAGRAM: &str =
    "Prints N cycles of the pipelined machine of a job as text: a line for each
instruction that is fetched, a column for each cycle, and the account of the
cycles below them.

usage: kpview diagram N [NAMES] [--label L,L [--listing FILE]] [FILE]

  N       the number of cycles, 0 to 1000, or a window FROM..TO: the cycles FROM
          to TO, at most 1000 of them, where TO is at most 1000000000. Its
          account is that of these cycles
  NAMES   a name for each stage, of 1 to 8 letters, digits or `_`, as in
          IF ID EX ME WB; without names the stages are numbered
  FILE    the job; without it, standard input is read. A single word after N
          is a file. Of several, the last one is a file if it has a character
          other than letters, digits and `_`, as in ./job
  L       a label: a register, or a word of a file as F[0]. Beside each line is
          its value before the instruction, in hexadecimal; or `-` where the
          instruction doesn't retire in these cycles. The names may be given in
          the job too: `//: stages IF ID EX ME WB`, `//: label PC`
  --listing FILE
          a listing of the program, as `objdump -d` prints it, or with lines as
          `8: add r2, r2, r1`: the text of the address that is the value of the
          first label

A cell names the stage that holds the instruction in the cycle, with a mark:
  *   waits for a value
  -   waits for the stage ahead
  !   held from outside
  x   squashed
";

/// The help of `svg`.
pub const HELP_SVG: &str =
    "Draws N cycles of the pipelined machine of a job as a picture, in SVG 1.1: a row
for each instruction that is fetched, a column for each cycle, and the account
of the cycles below them.

usage: kpview svg N [NAMES] [FILE]

  N       the number of cycles, 0 to 1000
  NAMES   a name for each stage, of 1 to 8 letters, digits or `_`, as in
          IF ID EX ME WB; without names the stages are numbered
  FILE    the job; without it, standard input is read. A single word after N
          is a file. Of several, the last one is a file if it has a character
          other than letters, digits and `_`, as in ./job

A cell has the colour of the stage that holds the instruction in the cycle, and
its name. The legend of the picture says how a cell shows that the instruction
waits, is held from outside or is squashed. A column is grey if a guess was
found wrong in its cycle.
";

/// The help of `page`.
pub const HELP_PAGE: &str =
    "Writes an HTML page about N cycles of the pipelined machine of a job: its source,
the pipeline diagram, and for each cycle the registers, the words of files that
changed, and why instructions wait or are squashed. A slider and the arrow keys
choose the cycle.

usage: kpview page N [NAMES] [FILE]

  N       the number of cycles, 0 to 1000
  NAMES   a name for each stage, of 1 to 8 letters, digits or `_`, as in
          IF ID EX ME WB; without names the stages are numbered
  FILE    the job; without it, standard input is read. A single word after N
          is a file. Of several, the last one is a file if it has a character
          other than letters, digits and `_`, as in ./job

The page is one file, which needs no other file and no network.
";

/// The help of `paths`.
pub const HELP_PATHS: &str =
    "Prints a table of the forwarding paths of the pipelined machine of a job: a row
for each read, with its line and its stage, and a column for each stage.

usage: kpview paths [--svg] [NAMES] [FILE]

  --svg   draw a picture, in SVG 1.1: the stages as columns, the reads as rows,
          and for each cell but `.` an arrow to the stage of the read
  NAMES   a name for each stage, of 1 to 8 letters, digits or `_`, as in
          IF ID EX ME WB; without names the stages are numbered
  FILE    the job; without it, standard input is read. A single word is a file.
          Of several, the last one is a file if it has a character other than
          letters, digits and `_`, as in ./job

A cell says what an older instruction in that stage has for the read:
  bypass  the value, once the stage isn't stalled
  maybe   the value if a set took place; else the read waits, or goes on with
          its guess
  wait    nothing: no value is set yet, or it isn't known whether the
          instruction writes what is read; the read waits
  guess   the same, but the read goes on with its guess
  .       the read takes no value from that stage
";

/// The help of `stalls`.
pub const HELP_STALLS: &str =
    "Prints why instructions wait in N cycles of the pipelined machine of a job: a
line for each instruction that waits in a cycle, the oldest first, and one for
each guess that is found wrong. Below them are the sums.

usage: kpview stalls N [NAMES] [FILE]

  N       the number of cycles, 0 to 100000
  NAMES   a name for each stage, of 1 to 8 letters, digits or `_`, as in
          IF ID EX ME WB; without names the stages are numbered
  FILE    the job; without it, standard input is read. A single word after N
          is a file. Of several, the last one is a file if it has a character
          other than letters, digits and `_`, as in ./job

An instruction waits for a value or for the stage ahead, is held from outside, or
waits and is squashed in a later cycle. A wait for a value is printed with what
is read, the line of the read, and the nearest older instruction that writes it
or may write it; in a job with guesses, only of an instruction that retires in
these N cycles.
";

/// The help of `depth`.
pub const HELP_DEPTH: &str =
    "Prints the longest path of each stage in the circuit of the pipelined machine of
a job, by a model of delays, with the wires of the module of `kp pipe` that it
goes through, the statements whose values they are, and the bits of the
registers after each stage. A unit is about a level of lookup tables.

usage: kpview depth [--files 0] [FILE]

  --files 0   files are outside of the circuit, as block RAM: a word of one takes
              no time, and an address ends a path
  FILE        the job; without it, standard input is read

The model says nothing of a clock frequency.
";

/// The help of `same`.
pub const HELP_SAME: &str =
    "Says whether two jobs describe the same instruction and start alike. Stages,
pipes, write stages, guesses, hints, aims and the order of statements may differ.

usage: kpview same FILE FILE

  FILE    a job; one of the two may be `-`, standard input

It prints `same` where both jobs have the same registers, files and samples, and
for each register and file the same enable, address and value, built of the same
operations. Then both sequential machines have the same state after every number
of instructions, and the pipelined machine of the second job shows the sequential
machine of the first.

Otherwise it prints where this isn't shown:
  not shown: targets    the registers and files differ in name, width or order
  not shown: samples    the same of samples
  not shown: start      the start values differ
  not shown: X: result  only one job writes X
  not shown: X: enable, X: address or X: value
                        the first register or file X with another one of these
It is no proof that runs differ: `a + b` and `b + a` are other operations here.

status: 0 same, 1 wrong words, 2 a job violates a rule, 3 reading failed,
4 writing failed, 5 out of memory, 7 not shown
";

/// The help on a topic.
pub fn help_of(topic: Topic) -> &'static str
    ensures { result.now ≡ help_text topic }
{
    match topic {
        Topic::Program => HELP,
        Topic::Of(Word::Diagram) => HELP_DIAGRAM,
        Topic::Of(Word::Svg) => HELP_SVG,
        Topic::Of(Word::Page) => HELP_PAGE,
        Topic::Of(Word::Paths) => HELP_PATHS,
        Topic::Of(Word::Stalls) => HELP_STALLS,
        Topic::Of(Word::Depth) => HELP_DEPTH,
        Topic::Of(Word::Same) => HELP_SAME,
    }
}

/// How the program is called, or one of its words.
pub fn usage_of(topic: Topic) -> &'static str
    ensures { result.now ≡ usage_text topic }
{
    match topic {
        Topic::Program => USAGE,
        Topic::Of(Word::Diagram) => USAGE_DIAGRAM,
        Topic::Of(Word::Svg) => USAGE_SVG,
        Topic::Of(Word::Page) => USAGE_PAGE,
        Topic::Of(Word::Paths) => USAGE_PATHS,
        Topic::Of(Word::Stalls) => USAGE_STALLS,
        Topic::Of(Word::Depth) => USAGE_DEPTH,
        Topic::Of(Word::Same) => USAGE_SAME,
    }
}

/// The line of `--version`.
pub fn version() -> &'static str
    ensures { result.now ≡ version_text }
{
    VERSION
}
