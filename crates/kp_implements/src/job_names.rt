// The registers and files of a netlist that have names of the job.
ghost use Rattle.std.specs.Prelude.{◌≡◌, ◌≤◌, ◌∷◌, ◌++◌, codes, length, map};
ghost use Rattle.kp_net.specs.Names.{same};
ghost use Rattle.kp_implements.specs.Naming.{place_among};

use kp_ast::Name;
use kp_net::{NetFile, NetReg};

/// The number of the register `r_X` for the name X, or the number of registers if none has this name.
pub fn register_named(regs: &[NetReg], name: &Name) -> u32
    requires { length regs.now ≤ 16777216 }
    ensures { result ≡ place_among (map (λ r. r.name) regs.now) (codes "r_" ++ name.now) }
{
    let mut i = 0;
    for reg in regs {
        if is_named(reg.name.bytes(), b'r', name) {
            return i;
        }
        i += 1;
    }
    i
}

/// The number of the file `f_X` for the name X, or the number of files if none has this name.
pub fn file_named(files: &[NetFile], name: &Name) -> u32
    requires { length files.now ≤ 16777216 }
    ensures { result ≡ place_among (map (λ f. f.name) files.now) (codes "f_" ++ name.now) }
{
    let mut i = 0;
    for file in files {
        if is_named(file.name.bytes(), b'f', name) {
            return i;
        }
        i += 1;
    }
    i
}

// Whether a label consists of this letter, a `_` and this name.
fn is_named(label: &[u8], letter: u8, name: &Name) -> bool
    ensures { result ≡ same label.now (letter ∷ 95 ∷ name.now) }
{
    match label {
        [first, mark, rest @ ..] => *first == letter && *mark == b'_' && rest == name.bytes(),
        _ => false,
    }
}
