// The names of a job that have values, by number.
ghost use Rattle.std.specs.Prelude.{◌≡◌, ◌++◌, ◌∷◌, List, IfOk, OnOk};
ghost use Rattle.kp_ast.specs.declared.tree.Decl.{Decl};
ghost use Rattle.kp_machine.specs.Slots.{hints_of, pipes_of, targets_of};
ghost use Rattle.kp_core_ports.specs.Names.{name_at, names_of};

use kp_ast::{Decl, Name};
use kp_base::NoMemory;
use std::alloc::Global;

/// The names of the targets, the pipes and the hints.
#[derive(Drop)]
pub struct Names {
    pub targets: Vec<Name>,
    pub pipes: Vec<Name>,
    pub hints: Vec<Name>,
}

impl Names {
    /// The names that these declarations give. The only error is out of memory.
    pub fn of(alloc: Global, decls: &[Decl]) -> Result<Names, NoMemory>
        ensures targets { IfOk result (λ n. n.targets.items ≡ names_of (targets_of decls.now)) }
        ensures pipes { IfOk result (λ n. n.pipes.items ≡ names_of (pipes_of decls.now)) }
        ensures hints { IfOk result (λ n. n.hints.items ≡ names_of (hints_of decls.now)) }
    {
        let mut names = Names {
            targets: Vec::new(alloc),
            pipes: Vec::new(alloc),
            hints: Vec::new(alloc),
        };
        for decl in decls {
            names.add(decl)?;
        }
        Ok(names)
    }

    // Adds the name of a declaration.
    #[tactic(auto, using(std::proofs::Common::append_assoc))]
    fn add(&mut self, decl: &Decl) -> Result<(), NoMemory>
        ensures targets { OnOk result ((ds : List Decl) → self.new.targets.items ++ names_of (targets_of ds) ≡ self.old.targets.items ++ names_of (targets_of (decl.now ∷ ds))) }
        ensures pipes { OnOk result ((ds : List Decl) → self.new.pipes.items ++ names_of (pipes_of ds) ≡ self.old.pipes.items ++ names_of (pipes_of (decl.now ∷ ds))) }
        ensures hints { OnOk result ((ds : List Decl) → self.new.hints.items ++ names_of (hints_of ds) ≡ self.old.hints.items ++ names_of (hints_of (decl.now ∷ ds))) }
    {
        match decl {
            Decl::Reg(named, _, _) | Decl::File(named, _, _) => self
                .targets
                .push(named.name.clone()?)?,
            Decl::Pipe(named, _) => self.pipes.push(named.name.clone()?)?,
            Decl::Hint(named, _, _) => self.hints.push(named.name.clone()?)?,
            Decl::Target(_) | Decl::Func(_) | Decl::Sample(_, _, _) => {}
        }
        Ok(())
    }
}

/// The bytes of the name with this number.
pub fn name_at(names: &[Name], number: u32) -> &[u8]
    ensures { result.now ≡ name_at names.now number }
{
    match names.get(number as usize) {
        Some(name) => name.bytes(),
        None => b"",
    }
}
