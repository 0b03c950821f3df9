// A design by numbers.
ghost use Rattle.std.specs.Prelude.{◌≡◌, ◌<◌, ◌≤◌, length, IfOk};
ghost use Rattle.kp_machine.specs.Slots.{targets_of, pipes_of, hints_of, samples_of, is_register};
ghost use Rattle.kp_machine.specs.Machine.{machine_of};
ghost use Rattle.kp_design.specs.Numbers.{target_at, pipe_at, hint_at, sample_at, guesses_of, guess_at};
ghost use Rattle.kp_design.specs.Spans.{is_piped, is_stored};
ghost use Rattle.kp_design.specs.Fits.{port_at, IsWidth, ResultFits, Fits};

use crate::guess::GuessSlot;
use crate::tables::{Declared, guesses, ports};
use kp_ast::Job;
use kp_base::NoMemory;
use kp_stage::Design;
use std::alloc::Global;
use std::marker::Model;

/// The width of a target's values, and that of its addresses, which is 0 for a register.
#[derive(Clone, Copy)]
pub struct Sized {
    pub width: u8,
    pub address: u8,
}

/// The width of a pipe, and the stages that store its value: from the one after its put to the last that uses it.
#[derive(Clone, Copy)]
pub struct Piped {
    pub width: u8,
    pub from: u32,
    pub to: u32,
}

/// How a target is written by its result.
#[derive(Clone, Copy)]
pub struct Port {
    /// The write stage.
    pub write: u32,
    /// The first stage in which it is known whether and at which address the instruction writes.
    pub known: u32,
    /// The stage after the first one that sets the result.
    pub set: u32,
    /// The enable pipe of the write, by number. Without one, each instruction writes.
    pub enable: Option<u32>,
    /// The address pipe, by number. A register has none.
    pub address: Option<u32>,
}

/// A hint.
#[derive(Clone, Copy)]
pub struct Aimed {
    /// Its width.
    pub width: u8,
    /// The stage that aims it, or 0 if none does.
    pub stage: u32,
}

/// The tables of a design, seen as its job.
pub struct Layout<'a> {
    design: &'a Design,
    declared: Declared,
    ports: Vec<Option<Port>>,
    guesses: Vec<GuessSlot>,
}

impl Drop for Layout<'_> {
    fn drop(self) {
        let Layout {
            design: _,
            declared,
            ports,
            guesses,
        } = self;
        drop(declared);
        drop(ports);
        drop(guesses);
    }
}

impl<'a> Model for Layout<'a> {
    ghost use Rattle.std.specs.Coded.{codes};
    ghost use Rattle.kp_ast.specs.contracts.tree.ExprKind as e;
    ghost use Rattle.kp_ast.specs.declared.tree.Job.{Job};
    ghost use Rattle.kp_design.specs.inner.Laid.{IsLaid};

    ghost Value = { Job };

    ghost coded = { Prim.hlevel (codes, e.the_row.coded) };

    ghost view = { λ l. l.design.now.job };

    ghost invariant = { λ l. IsLaid l.design.now.job (record { all = l.declared; ports = l.ports.items; guesses = l.guesses.items }) };
}

impl<'a> Layout<'a> {
    /// The tables of a design. Error: out of memory.
    pub fn of(alloc: Global, design: &'a Design) -> Result<Layout<'a>, NoMemory>
        ensures { IfOk result (λ layout. layout ≡ design.now.job) }
    {
        let job = design.job();
        let declared = Declared::of(alloc, job)?;
        let ports = ports(alloc, job, declared.targets.len())?;
        let guesses = guesses(alloc, job)?;
        Ok(Layout {
            design,
            declared,
            ports,
            guesses,
        })
    }

    /// The design.
    pub fn design(&self) -> &'a Design
        ensures { result.now.job ≡ self.now }
    {
        self.design
    }

    /// The job of the design.
    pub fn job(&self) -> &Job
        ensures { result.now ≡ self.now }
    {
        self.design.job()
    }

    /// The number of stages. The job satisfies the rules.
    pub fn stages(&self) -> u32
        ensures stages { result ≡ self.now.stages.value }
        ensures fits { Fits self.now }
    {
        self.design.job().stages.value as u32
    }

    /// The number of targets.
    pub fn target_count(&self) -> u32
        ensures { result ≡ length (targets_of self.now.decls) }
    {
        self.declared.targets.len() as u32
    }

    /// The number of pipes.
    pub fn pipe_count(&self) -> u32
        ensures { result ≡ length (pipes_of self.now.decls) }
    {
        self.declared.pipes.len() as u32
    }

    /// The number of hints.
    pub fn hint_count(&self) -> u32
        ensures { result ≡ length (hints_of self.now.decls) }
    {
        self.declared.hints.len() as u32
    }

    /// Whether a target is a register.
    pub fn is_register(&self, target: u32) -> bool
        requires { target < length (targets_of self.now.decls) }
        ensures { result ≡ is_register (target_at self.now target) }
    {
        self.declared.targets[target as usize].address == 0
    }

    /// The width of the values of a target.
    pub fn width(&self, target: u32) -> u8
        requires { target < length (targets_of self.now.decls) }
        ensures width { result ≡ (target_at self.now target).width }
        ensures fits { IsWidth result }
    {
        self.declared.targets[target as usize].width
    }

    /// The width of the addresses of a target, which is 0 for a register.
    pub fn address(&self, target: u32) -> u8
        requires { target < length (targets_of self.now.decls) }
        ensures address { result ≡ (target_at self.now target).address }
        ensures fits { result ≤ 16 }
    {
        self.declared.targets[target as usize].address
    }

    /// The width of a pipe.
    pub fn pipe_width(&self, pipe: u32) -> u8
        requires { pipe < length (pipes_of self.now.decls) }
        ensures width { result ≡ (pipe_at self.now pipe).width }
        ensures fits { IsWidth result }
    {
        self.declared.pipes[pipe as usize].width
    }

    /// Whether a stage stores the value of a pipe.
    pub fn is_piped(&self, pipe: u32, stage: u32) -> bool
        requires { pipe < length (pipes_of self.now.decls) }
        ensures { result ≡ is_piped self.now pipe stage }
    {
        let pipe = self.declared.pipes[pipe as usize];
        pipe.from <= stage && stage <= pipe.to
    }

    /// Whether a stage stores the result of a target.
    pub fn is_stored(&self, target: u32, stage: u32) -> bool
        requires { target < length (targets_of self.now.decls) }
        ensures { result ≡ is_stored self.now target stage }
    {
        match self.ports[target as usize] {
            Some(port) => port.set <= stage && stage <= port.write,
            None => false,
        }
    }

    /// The width of a hint, and the stage that aims it.
    pub fn hint(&self, hint: u32) -> Aimed
        requires { hint < length (hints_of self.now.decls) }
        ensures width { result.width ≡ (hint_at self.now hint).width }
        ensures stage { result.stage ≡ (machine_of self.now).hint_stage hint }
        ensures inside { result.stage < self.now.stages.value }
        ensures fits { IsWidth result.width }
    {
        self.declared.hints[hint as usize]
    }

    /// The number of samples.
    pub fn sample_count(&self) -> u32
        ensures { result ≡ length (samples_of self.now.decls) }
    {
        self.declared.samples.len() as u32
    }

    /// The width of a sample.
    pub fn sample(&self, sample: u32) -> u8
        requires { sample < length (samples_of self.now.decls) }
        ensures width { result ≡ (sample_at self.now sample).width }
        ensures fits { IsWidth result }
    {
        self.declared.samples[sample as usize]
    }

    /// How a target is written, or nothing if it has no result.
    pub fn port(&self, target: u32) -> Option<Port>
        requires { target < length (targets_of self.now.decls) }
        ensures port { result ≡ port_at self.now target }
        ensures fits { ResultFits self.now target result }
    {
        self.ports[target as usize]
    }

    /// The guesses, in the order of their numbers.
    pub fn guesses(&self) -> &[GuessSlot]
        ensures { result.now ≡ guesses_of self.now }
    {
        self.guesses.as_slice()
    }

    /// The guess with this number.
    pub fn guess(&self, guess: u32) -> GuessSlot
        requires { guess < length (guesses_of self.now) }
        ensures slot { result ≡ guess_at self.now guess }
        ensures fits { IsWidth result.width }
    {
        self.guesses[guess as usize]
    }
}
