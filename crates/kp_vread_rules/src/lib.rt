//! The rules of names, of drivers and of widths for the modules of Verilog texts, the findings in a module, and their verdict; the widths of the names of a module, and
//! the start values of its registers.
#![tactic(auto)]

mod check;
mod driver_rule;
mod fault;
mod first;
mod name_rule;
mod name_set;
mod names;
mod role;
mod sizes;
mod spelling;
mod starts;
mod width_fault;
mod width_rule;

pub use check::{check_module, module_findings};
pub use fault::{DriverFault, Form, Kind, ModuleFault, NameFault, Side, Wanted, WidthFault};
pub use role::PortName;
pub use sizes::{Size, Sizes};
pub use spelling::{is_output, is_sample};
pub use starts::Starts;
