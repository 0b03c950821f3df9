// The names of a job that have values, numbered.
ghost use Rattle.std.specs.Prelude.{◌≡◌, ◌++◌, ◌∷◌, [], List, IfOk};
ghost use Rattle.kp_ast.specs.declared.tree.Decl.{Decl};
ghost use Rattle.kp_machine.specs.Slots.{targets_of, pipes_of, hints_of, samples_of, number_of, slot};
ghost use Rattle.kp_synth_stage.specs.Work.{AreSlots};
ghost use Rattle.kp_synth_stage.specs.inner.Statements.{target_named};

use kp_ast::{Decl, Name, Named, Num};
use kp_base::NoMemory;
use kp_stage::Design;
use std::alloc::Global;
use std::marker::Model;

/// A slot: a register, a file, a pipe, a sample or a hint, with the widths in bits of its values and of its
/// addresses. Only a file has addresses; for all others their width is 0.
#[derive(Drop)]
pub struct Slot {
    name: Name,
    pub width: u64,
    pub address: u64,
}

impl Model for Slot {
    ghost use Rattle.kp_machine.specs.Slots.{Slot};

    ghost Value = { Slot };

    ghost view = { λ s. record { name = s.name; width = s.width; address = s.address } };
}

impl Slot {
    /// The name.
    pub fn name(&self) -> &Name
        ensures { result.now ≡ self.now.name }
    {
        &self.name
    }
}

/// The slots of a job, by number.
pub struct Slots {
    pub targets: Vec<Slot>,
    pub pipes: Vec<Slot>,
    pub samples: Vec<Slot>,
    pub hints: Vec<Slot>,
}

impl Drop for Slots {
    fn drop(self) {
        let Slots {
            targets,
            pipes,
            samples,
            hints,
        } = self;
        drop(targets);
        drop(pipes);
        drop(samples);
        drop(hints);
    }
}

impl Slots {
    /// The targets, pipes, samples and hints of a design, each in the order of declaration. The only error is out of memory.
    pub fn of(alloc: Global, d: &Design) -> Result<Slots, NoMemory>
        ensures { IfOk result (λ s. AreSlots d.now.job s) }
    {
        let mut slots = Slots {
            targets: Vec::new(alloc),
            pipes: Vec::new(alloc),
            samples: Vec::new(alloc),
            hints: Vec::new(alloc),
        };
        for decl in d.job().decls.as_slice() {
            slots.add(decl)?;
        }
        Ok(slots)
    }

    // Adds the slot of a declaration, if it has one.
    fn add(&mut self, decl: &Decl) -> Result<(), NoMemory>
        ensures targets { IfOk result (λ u. (ds : List Decl) → self.new.targets.items ++ targets_of ds ≡ self.old.targets.items ++ targets_of (decl.now ∷ ds)) }
        ensures pipes { IfOk result (λ u. (ds : List Decl) → self.new.pipes.items ++ pipes_of ds ≡ self.old.pipes.items ++ pipes_of (decl.now ∷ ds)) }
        ensures samples { IfOk result (λ u. (ds : List Decl) → self.new.samples.items ++ samples_of ds ≡ self.old.samples.items ++ samples_of (decl.now ∷ ds)) }
        ensures hints { IfOk result (λ u. (ds : List Decl) → self.new.hints.items ++ hints_of ds ≡ self.old.hints.items ++ hints_of (decl.now ∷ ds)) }
    {
        match decl {
            Decl::Reg(name, width, _) => add_slot(&mut self.targets, name, width, 0)?,
            Decl::File(name, width, address) => add_slot(
                &mut self.targets,
                name,
                width,
                address.value,
            )?,
            Decl::Pipe(name, width) => add_slot(&mut self.pipes, name, width, 0)?,
            Decl::Sample(name, width, _) => add_slot(&mut self.samples, name, width, 0)?,
            Decl::Hint(name, width, _) => add_slot(&mut self.hints, name, width, 0)?,
            _ => {}
        }
        Ok(())
    }
}

// Adds a slot at the end.
fn add_slot(slots: &mut Vec<Slot>, named: &Named, width: &Num, address: u64) -> Result<(), NoMemory>
    ensures { IfOk result (λ u. slots.new.items ≡ slots.old.items ++ slot named.now width.now address ∷ []) }
{
    let name = named.name.clone()?;
    slots.push(Slot {
        name,
        width: width.value,
        address,
    })?;
    Ok(())
}

/// The number of the first slot with this name, or the number of slots if none has it.
pub(crate) fn number_of(slots: &[Slot], name: &Name) -> usize
    ensures { result ≡ number_of slots.now name.now }
{
    for (i, slot) in slots.iter().enumerate() {
        if *name == slot.name {
            return i;
        }
    }
    slots.len()
}

/// The number of the target of a result.
pub(crate) fn target_named(decls: &[Decl], targets: &[Slot], name: &Name) -> Option<usize>
    ensures { result ≡ target_named decls.now targets.now name.now }
{
    for decl in decls {
        if let Decl::Target(r) = decl {
            if *name == r.name.name {
                return Some(number_of(targets, &r.target.name));
            }
        }
    }
    None
}
