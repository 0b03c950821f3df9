//! The tables that are looked up while instructions run. They are built once, when the machine is opened.
ghost use Rattle.std.specs.Prelude.{◌≡◌, ◌<◌, [], length, IfOk, get_or};
ghost use Rattle.std.specs.Option.{option_map};
ghost use Rattle.kp_machine.specs.Slots.{targets_of, pipes_of, samples_of, number_of, width_of, result_to, result_named};
ghost use Rattle.kp_seq_plan.specs.Names.{keys_of};
ghost use Rattle.kp_seq.specs.inner.Ready.{AreTables};
ghost use Rattle.kp_machine.specs.Words.{no_slot};
ghost use Rattle.kp_seq.specs.inner.Tables.{port_of, ports_of, pipe_number};

use kp_ast::{Decl, Name, Named, Num};
use kp_base::NoMemory;
use kp_seq_plan::Keys;
use kp_stage::Design;
use kp_width::laws::one_entry_for_each_name;
use std::alloc::Global;
use std::marker::Model;

/// A slot: a register, a file, a pipe or a sample. Only files have addresses; for the others the address width is 0.
#[derive(Drop)]
pub(crate) struct Slot {
    pub name: Name,
    pub width: u64,
    pub address: u64,
}

impl Model for Slot {
    ghost use Rattle.kp_machine.specs.Slots.{Slot};

    ghost Value = { Slot };

    ghost view = { λ s. record { name = s.name; width = s.width; address = s.address } };
}

impl Slot {
    ghost use Rattle.kp_machine.specs.Slots.{slot};

    fn new(named: &Named, width: &Num, address: u64) -> Result<Slot, NoMemory>
        ensures { IfOk result (λ s. s ≡ slot named.now width.now address) }
    {
        let name = named.name.clone()?;
        Ok(Slot {
            name,
            width: width.value,
            address,
        })
    }
}

/// The registers and files in the order of declaration.
pub(crate) fn targets(alloc: Global, decls: &[Decl]) -> Result<Vec<Slot>, NoMemory>
    ensures { IfOk result (λ slots. slots.items ≡ targets_of decls.now) }
{
    let mut slots = Vec::new(alloc);
    for decl in decls {
        match decl {
            Decl::Reg(name, width, _) => slots.push(Slot::new(name, width, 0)?)?,
            Decl::File(name, width, address) => slots.push(Slot::new(name, width, address.value)?)?,
            _ => {}
        }
    }
    Ok(slots)
}

/// The pipes in the order of declaration.
pub(crate) fn pipes(alloc: Global, decls: &[Decl]) -> Result<Vec<Slot>, NoMemory>
    ensures { IfOk result (λ slots. slots.items ≡ pipes_of decls.now) }
{
    let mut slots = Vec::new(alloc);
    for decl in decls {
        if let Decl::Pipe(name, width) = decl {
            slots.push(Slot::new(name, width, 0)?)?;
        }
    }
    Ok(slots)
}

/// The samples in the order of declaration.
pub(crate) fn samples(alloc: Global, decls: &[Decl]) -> Result<Vec<Slot>, NoMemory>
    ensures { IfOk result (λ slots. slots.items ≡ samples_of decls.now) }
{
    let mut slots = Vec::new(alloc);
    for decl in decls {
        if let Decl::Sample(name, width, _) = decl {
            slots.push(Slot::new(name, width, 0)?)?;
        }
    }
    Ok(slots)
}

/// The number of the first slot with this name, or the number of slots if none has it.
pub(crate) fn number_of(slots: &[Slot], name: &Name) -> usize
    ensures { result ≡ number_of slots.now name.now }
{
    for (i, slot) in slots.iter().enumerate() {
        if *name == slot.name {
            return i;
        }
    }
    slots.len()
}

/// The width of the values of the first slot with this name, or 0 if none has it.
pub(crate) fn width_of(slots: &[Slot], name: &Name) -> u64
    ensures { result ≡ width_of slots.now name.now }
{
    for slot in slots {
        if *name == slot.name {
            return slot.width;
        }
    }
    0
}

/// How a target is written: the numbers of its enable pipe and its address pipe.
#[derive(Clone, Copy)]
pub(crate) struct Port {
    pub enable: Option<usize>,
    pub address: Option<usize>,
}

/// The port of each target: that of its first result, if it has one.
pub(crate) fn ports(
    alloc: Global,
    decls: &[Decl],
    targets: &[Slot],
    pipes: &[Slot],
) -> Result<Vec<Option<Port>>, NoMemory>
    requires targets { targets.now ≡ targets_of decls.now }
    requires pipes { pipes.now ≡ pipes_of decls.now }
    ensures { IfOk result (λ ports. ports.items ≡ ports_of decls.now) }
{
    let mut ports = Vec::new(alloc);
    for t in 0..targets.len() {
        ports.push(port_to(decls, targets, pipes, t))?;
    }
    Ok(ports)
}

fn port_to(decls: &[Decl], targets: &[Slot], pipes: &[Slot], t: usize) -> Option<Port>
    ensures { result ≡ port_of pipes.now (result_to targets.now decls.now t) }
{
    for decl in decls {
        if let Decl::Target(r) = decl {
            if number_of(targets, &r.target.name) == t {
                return Some(Port {
                    enable: pipe_number(pipes, &r.enable),
                    address: pipe_number(pipes, &r.address),
                });
            }
        }
    }
    None
}

/// The number of the pipe with an optional name.
pub(crate) fn pipe_number(pipes: &[Slot], name: &Option<Named>) -> Option<usize>
    ensures { result ≡ pipe_number pipes.now name.now }
{
    match name {
        Some(named) => Some(number_of(pipes, &named.name)),
        None => None,
    }
}

/// The tables of a machine, with the declarations, which are borrowed.
pub(crate) struct Tables<'a> {
    pub decls: &'a [Decl],
    pub targets: Vec<Slot>,
    pub pipes: Vec<Slot>,
    pub samples: Vec<Slot>,
    pub ports: Vec<Option<Port>>,
    pub names: Vec<Name>,
}

impl Drop for Tables<'_> {
    fn drop(self) {
        let Tables {
            decls: _,
            targets,
            pipes,
            samples,
            ports,
            names,
        } = self;
        drop(targets);
        drop(pipes);
        drop(samples);
        drop(ports);
        drop(names);
    }
}

impl<'a> Model for Tables<'a> {
    ghost use Rattle.std.specs.Coded.{codes};
    ghost use Rattle.kp_ast.specs.contracts.tree.ExprKind as e;
    ghost use Rattle.kp_seq.specs.inner.Tables.{Laid};

    ghost Value = { Laid };

    ghost coded = { Prim.hlevel (codes, e.the_row.coded) };

    ghost view = { λ t. record { decls = t.decls.now; targets = t.targets.items; pipes = t.pipes.items; samples = t.samples.items; ports = t.ports.items; names = t.names.items } };
}

impl<'a> Tables<'a> {
    /// The width of the values of a target.
    #[tactic(auto, using(std::proofs::lemmas::List::get_or_default))]
    pub fn target_width(&self, target: usize) -> u64
        requires { target < length self.now.targets }
        ensures { result ≡ (get_or self.now.targets target no_slot).width }
    {
        self.targets[target].width
    }

    /// The tables of a design, whose names have these indices. Error: out of memory.
    pub fn lay_out(alloc: Global, d: &'a Design, keys: &Keys) -> Result<Tables<'a>, NoMemory>
        requires { keys.now ≡ keys_of [] d.now.entries }
        ensures tables { IfOk result (λ t. AreTables d.now.job t) }
        ensures keys { IfOk result (λ t. keys.now ≡ t.names) }
    {
        let decls = d.job().decls.as_slice();
        let targets = targets(alloc, decls)?;
        let pipes = pipes(alloc, decls)?;
        let samples = samples(alloc, decls)?;
        let ports = ports(alloc, decls, targets.as_slice(), pipes.as_slice())?;
        let names = keys.names(alloc)?;
        one_entry_for_each_name();
        Ok(Tables {
            decls,
            targets,
            pipes,
            samples,
            ports,
            names,
        })
    }
}

/// The number of the target of a result, if there is such a result.
pub(crate) fn target_of(tables: &Tables, name: &Name) -> Option<usize>
    ensures { result ≡ option_map (λ r. number_of tables.now.targets r.target.name) (result_named tables.now.decls name.now) }
{
    for decl in tables.decls {
        if let Decl::Target(r) = decl {
            if *name == r.name.name {
                return Some(number_of(tables.targets.as_slice(), &r.target.name));
            }
        }
    }
    None
}
