// The registers and files of a netlist that store the targets of its job.
ghost use Rattle.std.specs.Prelude.{◌≡◌, ◌<◌, ◌≤◌, ◌^◌, IfOk};
ghost use Rattle.kp_implements.specs.Shows.{IsOfJob};
ghost use Rattle.kp_run.specs.Places.{IsPlace, places_in, word_at, words_at};

use kp_ast::Decl;
use kp_base::NoMemory;
use kp_bits::Bits;
use kp_cycle::Sim;
use kp_implements::{file_named, register_named};
use kp_net::Netlist;
use kp_stage::Design;
use std::alloc::Global;

/// The register of a target, or its file with the number of words.
#[derive(Clone, Copy)]
pub enum Place {
    Register(u32),
    File(u32, u32),
}

impl Place {
    /// How many words the target has.
    pub fn words(self) -> u32
        ensures { result ≡ words_at self }
    {
        match self {
            Place::Register(_) => 1,
            Place::File(_, words) => words,
        }
    }

    /// The word at an address in the state of a netlist.
    pub fn word(self, sim: &Sim<'_>, address: u32) -> Bits
        requires place { IsPlace sim.now.net self }
        requires address { address < words_at self }
        ensures { result ≡ word_at sim.now self address }
    {
        match self {
            Place::Register(number) => sim.value(number),
            Place::File(number, _) => sim.word(number, address),
        }
    }
}

/// The register or file of each target. The only error is out of memory.
pub fn places_of(alloc: Global, design: &Design, net: &Netlist) -> Result<Vec<Place>, NoMemory>
    requires { IsOfJob net.now design.now.job }
    ensures { IfOk result (λ places. places.items ≡ places_in design.now.job net.now) }
{
    let parts = net.parts();
    let regs = parts.regs.as_slice();
    let files = parts.files.as_slice();
    let decls = design.job().decls.as_slice();
    let mut places = Vec::new(alloc);
    for decl in decls {
        match decl {
            Decl::Reg(n, _, _) => places.push(Place::Register(register_named(regs, &n.name)))?,
            Decl::File(n, _, address) => {
                places.push(Place::File(file_named(files, &n.name), words_of(address.value)))?;
            }
            _ => {}
        }
    }
    Ok(places)
}

// How many words a file has, by the width of its addresses.
fn words_of(address: u64) -> u32
    requires { address ≤ 16 }
    ensures { result ≡ 2 ^ address }
{
    1 << address
}
