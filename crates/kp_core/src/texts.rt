// The texts of help, usage and version. Each ends with a line feed.

/// The version of the program, which the file VERSION at the top has too.
pub const VERSION: &str = "kpcore 0.10.0\n";

/// How the program is called.
pub const USAGE: &str = "usage: kpcore [--names | --wires | --named | --comments] [FILE]
       kpcore --help
";

/// The help of the program.
pub const HELP: &str = "Writes the pipelined machine of a kp job as a Verilog module with ports.

usage: kpcore [--names | --wires | --named | --comments] [FILE]

  FILE    a job and, after its `end`, lines that ask for ports; without it,
          standard input is read. Write ./-job for a file named -job

lines, with registers R, files F, pipes P and stages k of the job:
  show R         output o_R: the register
  peek F         input pa_F, output p_F: the word of the file at this address
  load F         inputs le_F, la_F, l_F: while rst and le_F are 1, the word at
                 la_F becomes l_F at each edge of clk
  probe P at k   output o_P_k: the pipe, as stage k holds it
  next P at k    output d_P_k: what it takes at the next edge
  commit         output commit: an instruction leaves the last stage
A comment begins with //. Without such lines the module is that of kp pipe.

options:
  --names         print a line for each register of the module in its place:
                  its name, and which pipe, result or guess of which stage
                  it stores
  --wires         print a line for each wire of the module that is a signal of
                  a stage: its name, the signal, and the stage
  --named         add names for the registers and wires of each stage, in a
                  scope for each: dut.stage_1.read_a in a viewer of waveforms
  --comments      add a comment on each of these registers and wires
  -h, --help      print this help
  -V, --version   print the version

status: 0 done, 1 wrong words, 2 the job or a line violates a rule,
3 reading failed, 4 writing failed, 5 out of memory
";
