// Registers, files and pipes by their names.
ghost use Rattle.std.specs.Prelude.{◌≡◌, ◌^◌, ◌<◌, ◌&&◌, true, length};
ghost use Rattle.std.specs.Str.{bytes_eq};
ghost use Rattle.kp_machine.specs.Slots.{targets_of, pipes_of};
ghost use Rattle.kp_synth_registers.specs.Keys.{HasKey};
ghost use Rattle.kp_synth_registers.specs.declared.key.Key.TheVariants as keys;
ghost use Rattle.kp_core_ports.specs.Ports.{is_of, is_held, target_from, pipe_from};

use kp_ast::{Decl, Named};
use kp_design::Layout;

/// The number of the register, or of the file, with this name.
pub fn target_of(decls: &[Decl], register: bool, name: &[u8]) -> Option<u32>
    requires { length decls.now < 2 ^ 32 }
    ensures { result ≡ target_from register 0 (targets_of decls.now) name.now }
{
    let mut n = 0;
    for decl in decls {
        match decl {
            Decl::Reg(named, _, _) => {
                if is_target(named, 0, register, name) {
                    return Some(n);
                }
                n += 1;
            }
            Decl::File(named, _, address) => {
                if is_target(named, address.value, register, name) {
                    return Some(n);
                }
                n += 1;
            }
            _ => {}
        }
    }
    None
}

// A target with addresses of this width is the register, or the file, with this name.
fn is_target(named: &Named, address: u64, register: bool, name: &[u8]) -> bool
    ensures { result ≡ (bytes_eq named.now.name name.now && is_of register address) }
{
    named.name.bytes() == name && is_of(register, address)
}

fn is_of(register: bool, address: u64) -> bool
    ensures { result ≡ is_of register address }
{
    if register { address == 0 } else { address != 0 }
}

/// The number of the pipe with this name.
pub fn pipe_of(decls: &[Decl], name: &[u8]) -> Option<u32>
    requires { length decls.now < 2 ^ 32 }
    ensures { result ≡ pipe_from 0 (pipes_of decls.now) name.now }
{
    let mut n = 0;
    for decl in decls {
        if let Decl::Pipe(named, _) = decl {
            if named.name.bytes() == name {
                return Some(n);
            }
            n += 1;
        }
    }
    None
}

/// Whether a stage holds a pipe.
pub fn is_held(layout: &Layout<'_>, pipe: u32, stage: u64) -> bool
    requires { pipe < length (pipes_of layout.now.decls) }
    ensures value { result ≡ is_held layout.now pipe stage }
    ensures exists { result ≡ true → HasKey layout.now (keys.Pipe pipe stage) }
    ensures short { result ≡ true → stage < 2 ^ 32 }
{
    if stage == 0 || u64::from(layout.stages()) <= stage {
        return false;
    }
    layout.is_piped(pipe, stage as u32)
}
