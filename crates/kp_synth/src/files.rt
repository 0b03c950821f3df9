//! The files, and the ports of the samples.
ghost use Rattle.std.specs.Prelude.{◌≡◌, ◌≤◌, length, IfOk};
ghost use Rattle.kp_machine.specs.Slots.{targets_of, samples_of};
ghost use Rattle.kp_synth.specs.inner.Built.{file_count, net_files, net_ports, AllSpelled, SpelledFile, AllSpelled, SpelledPort};

use crate::labels::label;
use kp_ast::Decl;
use kp_base::{List, NoMemory};
use kp_design::Layout;
use kp_net::{NetFile, Port, WritePort};
use std::alloc::Global;

// A copy of the initial words of a file.
fn words_of(alloc: Global, words: &List<u64>) -> Result<List<u64>, NoMemory>
    ensures { IfOk result (λ r. r ≡ words.now) }
{
    Ok(List::new(Vec::from_slice(alloc, words.as_slice())?))
}

/// The files, with these initial words, and these write ports, indexed by the number of the target.
pub(crate) fn files(
    alloc: Global,
    layout: &Layout<'_>,
    words: &[List<u64>],
    ports: &[Option<WritePort>],
) -> Result<Vec<NetFile>, NoMemory>
    requires words { file_count layout.now.decls ≤ length words.now }
    requires ports { length (targets_of layout.now.decls) ≤ length ports.now }
    requires few { length (targets_of layout.now.decls) ≤ 65536 }
    ensures files { IfOk result (λ files. files.items ≡ net_files layout.now words.now ports.now 0 0 layout.now.decls) }
    ensures spelled { IfOk result (λ files. AllSpelled SpelledFile files.items) }
{
    let mut files = Vec::new(alloc);
    let mut t = 0u32;
    let mut f = 0;
    for decl in layout.job().decls.as_slice() {
        match decl {
            Decl::Reg(_, _, _) => t += 1,
            Decl::File(named, _, _) => {
                let name = label(alloc, b'f', &named.name)?;
                files.push(NetFile {
                    name,
                    width: layout.width(t),
                    address_width: layout.address(t),
                    words: words_of(alloc, &words[f])?,
                    port: ports[t as usize],
                })?;
                t += 1;
                f += 1;
            }
            _ => {}
        }
    }
    Ok(files)
}

/// The ports of the samples.
pub(crate) fn sample_ports(alloc: Global, layout: &Layout<'_>) -> Result<Vec<Port>, NoMemory>
    requires few { length (samples_of layout.now.decls) ≤ 65536 }
    ensures ports { IfOk result (λ ports. ports.items ≡ net_ports layout.now 0 layout.now.decls) }
    ensures spelled { IfOk result (λ ports. AllSpelled SpelledPort ports.items) }
{
    let mut ports = Vec::new(alloc);
    let mut x = 0u32;
    for decl in layout.job().decls.as_slice() {
        if let Decl::Sample(named, _, _) = decl {
            let name = label(alloc, b's', &named.name)?;
            ports.push(Port {
                name,
                width: layout.sample(x),
            })?;
            x += 1;
        }
    }
    Ok(ports)
}
