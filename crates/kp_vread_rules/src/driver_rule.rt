// Rule V5: each wire, output, register and file is driven as often as required, and no wire is used before it has a value.
ghost use Rattle.std.specs.Prelude.{◌≡◌, ◌≤◌, ◌-◌, ◌^◌, length, map, take, if◌then◌else◌, IfOk, OnOk};
ghost use Rattle.kp_base.specs.Findings.{with_answers};
ghost use Rattle.kp_net.specs.Names.{among};
ghost use Rattle.kp_vlog.specs.Rules.{Driven as Drivers, driver_fits, drives, nothing};
ghost use Rattle.kp_vlog.specs.Occurrences.{names as names_of};
ghost use Rattle.kp_vread_rules.specs.{DriverFaults.driver_answer, DriverFaults.driver_fault, DriverFaults.unassigned, DriverFaults.unmet, Faults.in_text, Findings.driver_findings as specified, Firsts.first_that, Firsts.is_target};
ghost use Rattle.kp_vread_rules.specs.declared.fault.DriverFault.TheVariants as faults;
ghost use Rattle.kp_vread_rules.specs.inner.{Driving.asked_in, Listed.occurrence_of, Roles.role_of, Sets.AlikeDriven, Sets.all_by};

use crate::fault::{DriverFault, Found, ModuleFault, placed};
use crate::first::{Sought, first, first_at};
use crate::name_set::NameSet;
use crate::names::{Names, Occurrence};
use crate::role::Role;
use crate::spelling::is_output;
use kp_base::{Finding, Findings, NoMemory};
use kp_net::Label;
use kp_vlog::{Named, VModule};
use std::alloc::Global;
use std::marker::Model;

/// The names that are assigned, started, filled and reset, the registers that are updated, and the files that are written.
pub(crate) struct Driven<'m> {
    pub given: NameSet<'m>,
    pub started: NameSet<'m>,
    pub filled: NameSet<'m>,
    pub reset: NameSet<'m>,
    pub updated: NameSet<'m>,
    pub written: NameSet<'m>,
}

impl Drop for Driven<'_> {
    fn drop(self) {
        let Driven {
            given,
            started,
            filled,
            reset,
            updated,
            written,
        } = self;
        drop(given);
        drop(started);
        drop(filled);
        drop(reset);
        drop(updated);
        drop(written);
    }
}

impl<'m> Model for Driven<'m> {
    ghost use Rattle.kp_vlog.specs.Rules.{Driven};

    ghost Value = { Driven };

    ghost view = { λ d. record { given = d.given; started = d.started; filled = d.filled; reset = d.reset; updated = d.updated; written = d.written } };
}

impl<'m> Driven<'m> {
    /// No names.
    pub fn new(alloc: Global) -> Driven<'m>
        ensures { result ≡ nothing }
    {
        Driven {
            given: NameSet::new(alloc),
            started: NameSet::new(alloc),
            filled: NameSet::new(alloc),
            reset: NameSet::new(alloc),
            updated: NameSet::new(alloc),
            written: NameSet::new(alloc),
        }
    }

    #[tactic(auto, using(crate::proofs::Drives::given_more, crate::proofs::Drives::started_more, crate::proofs::Drives::filled_more, crate::proofs::Drives::reset_more, crate::proofs::Drives::updated_more, crate::proofs::Drives::written_more, crate::proofs::Drives::as_before))]
    fn drive(&mut self, role: Role, name: &'m Label) -> Result<(), NoMemory>
        ensures { OnOk result (AlikeDriven self.new (drives self.old (role_of role) name.now)) }
    {
        match role {
            Role::IsGiven => self.given.add(name),
            Role::StartsReg => self.started.add(name),
            Role::FillsFile => self.filled.add(name),
            Role::ResetsReg => self.reset.add(name),
            Role::UpdatesReg => self.updated.add(name),
            Role::UpdatesFile => self.written.add(name),
            _ => Ok(()),
        }
    }

    // Whether a name obeys the rule, given what the complete module drives, and what is driven so far.
    fn fits(&self, resets: bool, all: &Driven<'m>, role: Role, name: &'m Label) -> bool
        ensures { result ≡ driver_fits resets all.now self.now (role_of role) name.now }
    {
        match role {
            Role::DeclaresPort(_) => !is_output(name.bytes()) || all.given.has(name),
            Role::DeclaresWire => all.given.has(name),
            Role::DeclaresReg => all.started.has(name)
                && (all.updated.has(name) && (!resets || all.reset.has(name))),
            Role::DeclaresFile => all.filled.has(name),
            Role::Gives => !self.given.has(name),
            Role::UsesWire => self.given.has(name),
            Role::StartsReg => !self.started.has(name),
            Role::StartsWord => self.filled.has(name),
            Role::FillsFile => !self.filled.has(name),
            Role::ResetsReg => !self.reset.has(name),
            Role::UpdatesReg => !self.updated.has(name),
            Role::UpdatesFile => !self.written.has(name),
            Role::Needs(holds) => holds,
            _ => true,
        }
    }
}

/// The names of a module that violate the rule, up to this number. The only error is out of memory.
pub(crate) fn driver_findings(
    alloc: Global,
    text: &[u8],
    whole: &VModule,
    names: &Names<'_>,
    most: usize,
) -> Result<Findings<Finding<ModuleFault>>, NoMemory>
    requires text { length text.now ≤ 2 ^ 32 - 2 }
    requires names { names.now ≡ names_of whole.now }
    ensures { IfOk result (λ f. f.found ≡ take most (specified text.now whole.now)) }
{
    let mut all = Driven::new(alloc);
    let mut so_far = Driven::new(alloc);
    let mut findings = Findings::new(alloc, most);
    drive_all(&mut all, names.list())?;
    let asked = Asked {
        resets: whole.reset.is_some(),
        all: &all,
        names: names.list(),
    };
    note_drivers(text, &asked, &mut so_far, &mut findings)?;
    Ok(findings)
}

// Adds what the names drive, from the last one on. The only error is out of memory.
fn drive_all<'m>(all: &mut Driven<'m>, names: &[Occurrence<'m>]) -> Result<(), NoMemory>
    ensures { OnOk result (AlikeDriven all.new (all_by (map occurrence_of names.now) all.old)) }
{
    let mut left = names.len();
    'names: while left > 0 {
        left -= 1;
        let occurrence = &names[left];
        all.drive(occurrence.role, &occurrence.named.name)?;
    }
    Ok(())
}

// The names of a module, and what they drive; whether there is a reset list.
#[derive(Drop)]
struct Asked<'a, 'm> {
    resets: bool,
    all: &'a Driven<'m>,
    names: &'a [Occurrence<'m>],
}

// The names that violate the rule, given what is driven so far.
fn note_drivers<'m>(
    text: &[u8],
    asked: &Asked<'_, 'm>,
    so_far: &mut Driven<'m>,
    findings: &mut Findings<Finding<ModuleFault>>,
) -> Result<(), NoMemory>
    requires { length text.now ≤ 2 ^ 32 - 2 }
    ensures { OnOk result (findings.new ≡ with_answers findings.old (in_text text.now (asked_in asked.now so_far.old (map occurrence_of asked.now.names.now)))) }
{
    for occurrence in asked.names {
        if findings.is_full() {
            return Ok(());
        }
        findings.note(placed(text, wrong_driver(asked, so_far, *occurrence)))?;
        so_far.drive(occurrence.role, &occurrence.named.name)?;
    }
    Ok(())
}

// A name that violates the rule, given what is driven so far.
fn wrong_driver<'m>(
    asked: &Asked<'_, 'm>,
    so_far: &Driven<'m>,
    occurrence: Occurrence<'m>,
) -> Option<Found>
    ensures { result ≡ driver_answer (map occurrence_of asked.now.names.now) asked.now.resets asked.now.all.now so_far.now (occurrence_of occurrence.entry) }
{
    let Occurrence { role, named } = occurrence;
    if so_far.fits(asked.resets, asked.all, role, &named.name) {
        return None;
    }
    Some(Found {
        at: named.at,
        fault: ModuleFault::Driver(driver_fault(asked, role, named)),
    })
}

// Why a name violates the rule.
fn driver_fault<'m>(asked: &Asked<'_, 'm>, role: Role, named: &'m Named) -> DriverFault
    ensures { result ≡ driver_fault (map occurrence_of asked.now.names.now) asked.now.all.now (role_of role) named.now }
{
    match role {
        Role::DeclaresPort(_) => DriverFault::NoValue,
        Role::DeclaresWire => DriverFault::NeverAssigned,
        Role::DeclaresReg => register_fault(asked.all, &named.name),
        Role::DeclaresFile => DriverFault::NoFill,
        Role::Gives => DriverFault::AssignedAgain {
            first: first_at(asked.names, Sought::Target, named),
        },
        Role::UsesWire => unassigned(asked.names, named),
        Role::StartsReg => DriverFault::StartedAgain {
            first: first_at(asked.names, Sought::Start, named),
        },
        Role::StartsWord => DriverFault::FilledLate,
        Role::FillsFile => DriverFault::FilledAgain {
            first: first_at(asked.names, Sought::Fill, named),
        },
        Role::ResetsReg => DriverFault::ResetAgain {
            first: first_at(asked.names, Sought::Reset, named),
        },
        Role::UpdatesReg | Role::UpdatesFile => DriverFault::UpdatedAgain {
            first: first_at(asked.names, Sought::Update, named),
        },
        _ => unmet(asked.names, named),
    }
}

// A register without a start value, an update, or a line of the reset list.
fn register_fault<'m>(all: &Driven<'m>, name: &'m Label) -> DriverFault
    ensures { result ≡ (if among all.now.started name.now then (if among all.now.updated name.now then faults.NoReset else faults.NoUpdate) else faults.NoStart) }
{
    if !all.started.has(name) {
        DriverFault::NoStart
    } else if !all.updated.has(name) {
        DriverFault::NoUpdate
    } else {
        DriverFault::NoReset
    }
}

// A wire that is used before it is assigned.
fn unassigned(names: &[Occurrence<'_>], named: &Named) -> DriverFault
    ensures { result ≡ unassigned named.now.at (first_that is_target named.now.name (map occurrence_of names.now)) }
{
    match first(names, Sought::Target, named.name.bytes()) {
        Some(found) if found.named.at < named.at => DriverFault::Itself,
        Some(found) => DriverFault::AssignedLate {
            assigned: found.named.at,
        },
        None => DriverFault::NeverAssigned,
    }
}

// What a name needs of the module.
fn unmet(names: &[Occurrence<'_>], named: &Named) -> DriverFault
    ensures { result ≡ unmet (map occurrence_of names.now) named.now }
{
    let name = named.name.bytes();
    if name == b"rst".as_slice() {
        return DriverFault::NoResetList;
    }
    if is_output(name) {
        return DriverFault::Wide;
    }
    DriverFault::OtherStart {
        start: first_at(names, Sought::Start, named),
    }
}
