// Rule V3: each name is declared once, before its uses, and is one that its role allows.
ghost use Rattle.std.specs.Prelude.{◌≡◌, ◌≤◌, ◌-◌, ◌^◌, [], length, map, take, IfOk, OnOk};
ghost use Rattle.kp_base.specs.Findings.{findings as all_found, with_answers};
ghost use Rattle.kp_vlog.specs.Rules.{name_fits, learns};
ghost use Rattle.kp_vread_rules.specs.{Faults.in_text, NameFaults.kind_of, NameFaults.name_answer, NameFaults.name_fault, NameFaults.names_asked, NameFaults.wrong_declaration, NameFaults.wrong_use_of};
ghost use Rattle.kp_vread_rules.specs.inner.{Listed.occurrence_of, Roles.role_of, Sets.Alike};

use crate::fault::{Form, Found, Kind, ModuleFault, NameFault, Wanted, placed};
use crate::first::{Sought, first, first_at};
use crate::name_set::NameSet;
use crate::names::{Names, Occurrence};
use crate::role::Role;
use crate::spelling::{is_file, is_module, is_output, is_reg, is_sample, is_wire};
use kp_base::{Finding, Findings, NoMemory};
use kp_net::Label;
use kp_vlog::Named;
use std::alloc::Global;

/// The names of a module that violate the rule, up to this number. The only error is out of memory.
pub(crate) fn name_findings(
    alloc: Global,
    text: &[u8],
    names: &Names<'_>,
    most: usize,
) -> Result<Findings<Finding<ModuleFault>>, NoMemory>
    requires { length text.now ≤ 2 ^ 32 - 2 }
    ensures { IfOk result (λ f. f.found ≡ take most (all_found (in_text text.now (names_asked names.now [] names.now)))) }
{
    let mut known = NameSet::new(alloc);
    let mut findings = Findings::new(alloc, most);
    note_names(text, names.list(), &mut known, &mut findings)?;
    Ok(findings)
}

// The same, if these names are known.
fn note_names<'m>(
    text: &[u8],
    names: &[Occurrence<'m>],
    known: &mut NameSet<'m>,
    findings: &mut Findings<Finding<ModuleFault>>,
) -> Result<(), NoMemory>
    requires { length text.now ≤ 2 ^ 32 - 2 }
    ensures { OnOk result (findings.new ≡ with_answers findings.old (in_text text.now (names_asked (map occurrence_of names.now) known.old (map occurrence_of names.now)))) }
{
    for occurrence in names {
        if findings.is_full() {
            return Ok(());
        }
        findings.note(placed(text, wrong_name(names, known, *occurrence)))?;
        learn(known, occurrence.role, &occurrence.named.name)?;
    }
    Ok(())
}

// A name that isn't one that its role allows, if these names are known.
fn wrong_name<'m>(
    names: &[Occurrence<'m>],
    known: &NameSet<'m>,
    occurrence: Occurrence<'m>,
) -> Option<Found>
    ensures { result ≡ name_answer (map occurrence_of names.now) known.now (occurrence_of occurrence.entry) }
{
    let Occurrence { role, named } = occurrence;
    if fits(known, role, &named.name) {
        return None;
    }
    Some(Found {
        at: named.at,
        fault: ModuleFault::Name(name_fault(names, known, role, named)),
    })
}

fn fits<'m>(known: &NameSet<'m>, role: Role, name: &'m Label) -> bool
    ensures { result ≡ name_fits known.now (role_of role) name.now }
{
    let bytes = name.bytes();
    let is_known = known.has(name);
    match role {
        Role::NamesModule => is_module(bytes),
        Role::DeclaresPort(port) => bytes == port.bytes() && !is_known,
        Role::DeclaresSample => is_sample(bytes) && !is_known,
        Role::DeclaresReg => is_reg(bytes) && !is_known,
        Role::DeclaresFile => is_file(bytes) && !is_known,
        Role::DeclaresInteger => matches!(bytes, b"i") && !is_known,
        Role::DeclaresWire => is_wire(bytes) && !is_known,
        Role::Gives => is_output(bytes) || is_wire(bytes) && is_known,
        Role::UsesWire => is_wire(bytes) && is_known,
        Role::UsesSource => matches!(bytes, b"ext")
            || (is_reg(bytes) || is_sample(bytes)) && is_known,
        Role::UsesInteger => matches!(bytes, b"i") && is_known,
        Role::UsesPort(port) => bytes == port.bytes() && is_known,
        Role::UsesFile | Role::StartsWord | Role::FillsFile | Role::UpdatesFile => {
            is_file(bytes) && is_known
        }
        Role::StartsReg | Role::ResetsReg | Role::UpdatesReg => is_reg(bytes) && is_known,
        Role::GivesNoWire => false,
        Role::IsGiven | Role::Needs(_) => true,
    }
}

// Why a name isn't one that its role allows.
#[tactic(auto, using(crate::proofs::Ports::port_is))]
fn name_fault<'m>(
    names: &[Occurrence<'m>],
    known: &NameSet<'m>,
    role: Role,
    named: &'m Named,
) -> NameFault
    ensures { result ≡ name_fault (map occurrence_of names.now) known.now (role_of role) named.now }
{
    let name = named.name.bytes();
    match role {
        Role::NamesModule => NameFault::WrongForm(Form::Module),
        Role::DeclaresPort(port) => {
            wrong_declaration(
                names,
                named,
                name == port.bytes(),
                NameFault::WrongPort(port),
            )
        }
        Role::DeclaresSample => {
            wrong_declaration(
                names,
                named,
                is_sample(name),
                NameFault::WrongForm(Form::Sample),
            )
        }
        Role::DeclaresReg => {
            wrong_declaration(
                names,
                named,
                is_reg(name),
                NameFault::WrongForm(Form::Register),
            )
        }
        Role::DeclaresFile => {
            wrong_declaration(
                names,
                named,
                is_file(name),
                NameFault::WrongForm(Form::File),
            )
        }
        Role::DeclaresInteger => {
            wrong_declaration(
                names,
                named,
                matches!(name, b"i"),
                NameFault::WrongForm(Form::Integer),
            )
        }
        Role::DeclaresWire => {
            wrong_declaration(
                names,
                named,
                is_wire(name),
                NameFault::WrongForm(Form::Wire),
            )
        }
        Role::Gives => wrong_use(names, known, named, Wanted::WireOrOutput),
        Role::UsesWire => wrong_use(names, known, named, Wanted::Wire),
        Role::UsesSource => wrong_use(names, known, named, Wanted::Source),
        Role::UsesInteger => wrong_use(names, known, named, Wanted::Integer),
        Role::UsesPort(port) => wrong_use(names, known, named, Wanted::Port(port)),
        Role::UsesFile | Role::StartsWord | Role::FillsFile | Role::UpdatesFile => {
            wrong_use(names, known, named, Wanted::File)
        }
        Role::StartsReg | Role::ResetsReg | Role::UpdatesReg => wrong_use(
            names,
            known,
            named,
            Wanted::Register,
        ),
        Role::GivesNoWire | Role::IsGiven | Role::Needs(_) => NameFault::NoWire,
    }
}

// A declared name has another form, or is declared a second time.
fn wrong_declaration(
    names: &[Occurrence<'_>],
    named: &Named,
    has_form: bool,
    fault: NameFault,
) -> NameFault
    ensures { result ≡ wrong_declaration (map occurrence_of names.now) named.now has_form fault }
{
    if !has_form {
        return fault;
    }
    NameFault::DeclaredAgain {
        first: first_at(names, Sought::Declaration, named),
    }
}

// A name isn't declared before its use, or is of another kind than the place requires.
fn wrong_use<'m>(
    names: &[Occurrence<'m>],
    known: &NameSet<'m>,
    named: &'m Named,
    wanted: Wanted,
) -> NameFault
    ensures { result ≡ wrong_use_of (map occurrence_of names.now) known.now named.now wanted }
{
    let name = named.name.bytes();
    match (first(names, Sought::Declaration, name), wanted) {
        (Some(found), _) if known.has(&named.name) => NameFault::WrongKind {
            kind: kind_of(found.role),
            declared: found.named.at,
            wanted,
        },
        (Some(found), _) => NameFault::DeclaredLate {
            declared: found.named.at,
        },
        (None, Wanted::Port(port)) if name == port.bytes() => NameFault::NoPort,
        (None, _) => NameFault::Undeclared(wanted),
    }
}

// What a name denotes that is declared in this role.
fn kind_of(role: Role) -> Kind
    ensures { result ≡ kind_of (role_of role) }
{
    match role {
        Role::DeclaresPort(_) => Kind::Port,
        Role::DeclaresSample => Kind::Sample,
        Role::DeclaresReg => Kind::Register,
        Role::DeclaresFile => Kind::File,
        Role::DeclaresInteger => Kind::Integer,
        _ => Kind::Wire,
    }
}

#[tactic(auto, using(crate::proofs::Turns::alike_added, crate::proofs::Turns::alike_itself))]
fn learn<'m>(known: &mut NameSet<'m>, role: Role, name: &'m Label) -> Result<(), NoMemory>
    ensures { OnOk result (Alike known.new (learns known.old (role_of role) name.now)) }
{
    match role {
        Role::DeclaresPort(_)
        | Role::DeclaresSample
        | Role::DeclaresReg
        | Role::DeclaresFile
        | Role::DeclaresInteger
        | Role::DeclaresWire => known.add(name),
        _ => Ok(()),
    }
}
