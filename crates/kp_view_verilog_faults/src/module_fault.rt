// What is said of a module that violates a rule: V3 to V5.
ghost use Rattle.std.specs.Prelude.{option_map};
ghost use Rattle.kp_view_help.specs.Phrases.{printed};
ghost use Rattle.kp_view_verilog_faults.specs.Helps.{HelpsModule};

use crate::driver_fault::{driver_help, write_driver};
use crate::name_fault::{name_help, write_name};
use crate::source::Source;
use crate::width_fault::{width_help, write_width};
use kp_view_help::{Line, Word};
use kp_vread_rules::ModuleFault;
use std::fmt::{self, Display};

/// A way to violate a rule, in a text with this name at its place.
#[derive(Clone, Copy)]
pub struct ModuleMessage<'t> {
    pub source: Source<'t>,
    pub name: Word<'t>,
    pub fault: ModuleFault,
}

impl<'t> ModuleMessage<'t> {
    /// What helps, if anything is known to.
    pub fn help(&self) -> Option<Line<'t>>
        ensures { HelpsModule self.now.name.0.now self.now.fault (option_map printed result) }
    {
        match self.fault {
            ModuleFault::Name(fault) => name_help(self.name, fault),
            ModuleFault::Width(fault) => width_help(self.name, fault),
            ModuleFault::Driver(fault) => driver_help(self.name, fault),
        }
    }
}

impl<'t> Display for ModuleMessage<'t> {
    fn fmt<W: fmt::Write>(&self, f: &mut fmt::Formatter<W>) -> fmt::Result {
        let ModuleMessage {
            source,
            name,
            fault,
        } = *self;
        match fault {
            ModuleFault::Name(fault) => write_name(f, source, name, fault),
            ModuleFault::Width(fault) => write_width(f, source, name, fault),
            ModuleFault::Driver(fault) => write_driver(f, source, name, fault),
        }
    }
}
