// The objects that the names of a module denote, by tables.
ghost use Rattle.std.specs.Prelude.{◌+◌, ◌-◌, ◌^◌, ◌<◌, ◌≤◌, ◌++◌, ◌∷◌, [], ℕ, List, length, map, IfOk, OnOk};
ghost use Rattle.kp_vlog.specs.Scope.{scope_of, sizes_of, reg_names, file_names};
ghost use Rattle.kp_vread_rules.specs.Tables.{AlikeSizes};
ghost use Rattle.kp_vread.specs.inner.Numbering.{AreNumbered};
ghost use Rattle.kp_vread.specs.inner.Building.{IsScope};

use crate::places::Places;
use kp_base::NoMemory;
use kp_vlog::{Item, VModule, VPort};
use kp_vread_rules::Sizes;
use std::alloc::Global;
use std::marker::Model;

/// The objects that the names of a module denote: the sizes of all, and the numbers of the samples, registers and files, each in the order of
/// declaration.
pub(crate) struct Numbers<'m> {
    pub sizes: Sizes<'m>,
    pub samples: Places<'m>,
    pub regs: Places<'m>,
    pub files: Places<'m>,
}

impl Drop for Numbers<'_> {
    fn drop(self) {
        let Numbers {
            sizes,
            samples,
            regs,
            files,
        } = self;
        drop(sizes);
        drop(samples);
        drop(regs);
        drop(files);
    }
}

impl<'m> Model for Numbers<'m> {
    ghost use Rattle.kp_vread.specs.inner.Building.{Numbers as Listed};

    ghost Value = { Listed };

    ghost view = { λ n. record { sizes = n.sizes; samples = n.samples; regs = n.regs; files = n.files } };
}

impl<'m> Numbers<'m> {
    /// The numbers of the names of a module. The only error is out of memory.
    pub fn new(alloc: Global, whole: &'m VModule) -> Result<Numbers<'m>, NoMemory>
        requires samples { length whole.now.samples ≤ 16777216 }
        requires items { length whole.now.items ≤ 16777216 }
        ensures { IfOk result (λ n. IsScope n (scope_of whole.now)) }
    {
        let sizes = Sizes::new(alloc, whole)?;
        let mut numbers = Numbers {
            sizes,
            samples: Places::new(alloc),
            regs: Places::new(alloc),
            files: Places::new(alloc),
        };
        numbers.take(whole)?;
        Ok(numbers)
    }

    // Numbers the samples, registers and files of a module.
    fn take(&mut self, whole: &'m VModule) -> Result<(), NoMemory>
        requires few_samples { length whole.now.samples ≤ 16777216 }
        requires few_items { length whole.now.items ≤ 16777216 }
        requires sizes { AlikeSizes self.old.sizes (sizes_of whole.now) }
        requires samples { AreNumbered self.old.samples [] }
        requires regs { AreNumbered self.old.regs [] }
        requires files { AreNumbered self.old.files [] }
        ensures { OnOk result (IsScope self.new (scope_of whole.now)) }
    {
        number_samples(&mut self.samples, whole.samples.as_slice())?;
        number_regs(&mut self.regs, whole.items.as_slice())?;
        number_files(&mut self.files, whole.items.as_slice())
    }
}

fn number_samples<'m>(places: &mut Places<'m>, ports: &'m [VPort]) -> Result<(), NoMemory>
    requires few { length ports.now ≤ 16777216 }
    requires empty { AreNumbered places.old [] }
    ensures { OnOk result (AreNumbered places.new (map (λ p. p.port.name) ports.now)) }
{
    for port in ports {
        places.add(&port.port.name)?;
    }
    Ok(())
}

fn number_regs<'m>(places: &mut Places<'m>, items: &'m [Item]) -> Result<(), NoMemory>
    requires few { length items.now ≤ 16777216 }
    requires empty { AreNumbered places.old [] }
    ensures { OnOk result (AreNumbered places.new (reg_names items.now)) }
{
    for item in items {
        add_reg(places, item)?;
    }
    Ok(())
}

fn number_files<'m>(places: &mut Places<'m>, items: &'m [Item]) -> Result<(), NoMemory>
    requires few { length items.now ≤ 16777216 }
    requires empty { AreNumbered places.old [] }
    ensures { OnOk result (AreNumbered places.new (file_names items.now)) }
{
    for item in items {
        add_file(places, item)?;
    }
    Ok(())
}

fn add_reg<'m>(places: &mut Places<'m>, item: &'m Item) -> Result<(), NoMemory>
    requires { places.old.count < 2 ^ 32 - 1 }
    ensures numbered { OnOk result ((ks : List (List ℕ)) → AreNumbered places.old ks → AreNumbered places.new (ks ++ reg_names (item.now ∷ []))) }
    ensures count { OnOk result (places.new.count ≤ places.old.count + 1) }
{
    match item {
        Item::Reg(_, name) => places.add(&name.name),
        _ => Ok(()),
    }
}

fn add_file<'m>(places: &mut Places<'m>, item: &'m Item) -> Result<(), NoMemory>
    requires { places.old.count < 2 ^ 32 - 1 }
    ensures numbered { OnOk result ((ks : List (List ℕ)) → AreNumbered places.old ks → AreNumbered places.new (ks ++ file_names (item.now ∷ []))) }
    ensures count { OnOk result (places.new.count ≤ places.old.count + 1) }
{
    match item {
        Item::File(_, name, _) => places.add(&name.name),
        _ => Ok(()),
    }
}
