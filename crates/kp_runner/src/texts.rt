// The texts of help, usage and version. Each ends with a line feed.

/// The version of the program, which the file VERSION at the top has too.
pub const VERSION: &str = "kprun 0.10.0\n";

/// How the program is called.
pub const USAGE: &str = "usage: kprun run [--until COND].. [--limit N] [--only LIST] [--quiet]
                 [--expect FILE].. [FILE]
       kprun --help
";

/// The help of the program.
pub const HELP: &str =
    "Runs a kp job until a condition holds, prints the state there, and compares it
with what is expected.

usage: kprun run [--until COND].. [--limit N] [--only LIST] [--quiet]
                 [--expect FILE].. [FILE]

  FILE    a job; without it, or with -, standard input is read

options, before FILE:
  --until COND    a condition on the sequential machine after the instructions
                  that have retired; of several the first that holds ends the run
                  halt       the state is the one after 1 to 4 instructions
                             fewer; this is the condition where none is given
                  retired=N  N instructions have retired
                  R=V, F[3]=V, R!=V
                             the register or word has, or hasn't, this value:
                             12, 0x0c or 8'h0c
  --limit N       run at most N cycles (10000000); up to 1000000000
  --only LIST     print these registers, files, words F[3] and ranges F[0..15];
                  without it, all registers, and the words that differ from the
                  start
  --quiet         print no state
  --expect FILE   lines that must hold at the end: R = V, F[3] = V, V,
                  F[..] = V, after N, retired = N, retired <= N, cycles = N,
                  cycles <= N. What `kp seq` prints is such a file. The job may
                  have such lines too, each after `//: expect`
  -h, --help      print this help
  -V, --version   print the version

status: 0 a condition holds and all expectations are met, 1 wrong words,
2 the job or an expectation file violates a rule, 3 reading failed,
4 writing failed, 5 out of memory, 7 an expectation isn't met, 8 the limit
";
