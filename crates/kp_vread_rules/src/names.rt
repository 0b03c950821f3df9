// The names of a module, in the order of the text.
ghost use Rattle.std.specs.Prelude.{◌≡◌, ◌++◌, ◌∷◌, [], codes, map, if◌then◌else◌, IfOk, OnOk};
ghost use Rattle.kp_vlog.specs.Occurrences.{names_module, uses_wire, uses_source, uses_integer, occurs, wires_used, operands, right_names, item_names, items_names, init_names, inits_names, update_names, updates_names, declares_port, samples_names, reset_port_names, wide_port_names, header_names, body_names, names, is_literal, reset_names};
ghost use Rattle.std.specs.Option.{is_some};
ghost use Rattle.kp_vread_rules.specs.{Ports.port_name, inner.Roles.role_of};
ghost use Rattle.kp_vread_rules.specs.Tables.{found};
ghost use Rattle.kp_vread_rules.specs.inner.Listed.{occurrence_of};
ghost use Rattle.kp_vread_rules.specs.inner.Starting.{values_by};

use crate::Starts;
use crate::role::{PortName, Role};
use crate::spelling::is_output;
use kp_base::NoMemory;
use kp_bits::Literal;
use kp_net::Label;
use kp_vlog::{Fill, Init, Item, Named, ResetList, ResetValue, Right, Update, VModule, VPort};
use std::alloc::Global;
use std::marker::Model;

/// A name, and its role.
#[derive(Clone, Copy)]
pub(crate) struct Occurrence<'m> {
    pub role: Role,
    pub named: &'m Named,
}

/// The names of a module, in the order of the text. Contracts see the list of them that the rules step through.
pub(crate) struct Names<'m> {
    list: Vec<Occurrence<'m>>,
}

impl Drop for Names<'_> {
    fn drop(self) {
        let Names { list } = self;
        drop(list);
    }
}

impl<'m> Model for Names<'m> {
    ghost use Rattle.std.specs.Prelude.{List, map};
    ghost use Rattle.kp_vlog.specs.Occurrences.{Occurrence};
    ghost use Rattle.kp_vread_rules.specs.inner.Listed.{occurrence_of};

    ghost Value = { List Occurrence };

    ghost view = { λ n. map occurrence_of n.list.items };
}

impl<'m> Names<'m> {
    /// All names of a module. The only error is out of memory.
    pub fn new(alloc: Global, whole: &'m VModule) -> Result<Names<'m>, NoMemory>
        ensures { IfOk result (λ n. n ≡ names whole.now) }
    {
        let mut names = Names {
            list: Vec::new(alloc),
        };
        names.take(alloc, whole)?;
        Ok(names)
    }

    // Adds the names of a complete module.
    fn take(&mut self, alloc: Global, whole: &'m VModule) -> Result<(), NoMemory>
        ensures { OnOk result (self.new ≡ self.old ++ names whole.now) }
    {
        self.header(whole)?;
        self.items(whole.items.as_slice())?;
        self.body(alloc, whole)
    }

    fn header(&mut self, whole: &'m VModule) -> Result<(), NoMemory>
        ensures { OnOk result (self.new ≡ self.old ++ header_names whole.now) }
    {
        self.head(whole)?;
        self.push(Role::DeclaresPort(PortName::Ext), &whole.ext.port)?;
        self.samples(whole.samples.as_slice())?;
        self.outputs(whole)
    }

    // The name of the module, and the ports for the clock and for the reset.
    fn head(&mut self, whole: &'m VModule) -> Result<(), NoMemory>
        ensures { OnOk result (self.new ≡ self.old ++ (occurs names_module whole.now.name ∷ occurs (declares_port (codes "clk")) whole.now.clk ∷ reset_port_names whole.now.rst (is_some whole.now.reset))) }
    {
        self.push(Role::NamesModule, &whole.name)?;
        self.push(Role::DeclaresPort(PortName::Clk), &whole.clk)?;
        self.reset_port(&whole.rst, whole.reset.is_some())
    }

    fn outputs(&mut self, whole: &'m VModule) -> Result<(), NoMemory>
        ensures { OnOk result (self.new ≡ self.old ++ (wide_port_names (codes "full") whole.now.ext whole.now.full ++ (wide_port_names (codes "ue") whole.now.ext whole.now.ue
            ++ (occurs (declares_port (codes "back")) whole.now.back.port ∷ [])))) }
    {
        self.wide_port(PortName::Full, &whole.ext, &whole.full)?;
        self.wide_port(PortName::Ue, &whole.ext, &whole.ue)?;
        self.push(Role::DeclaresPort(PortName::Back), &whole.back.port)
    }

    // A port that is as wide as the stall word.
    fn wide_port(&mut self, name: PortName, ext: &'m VPort, port: &'m VPort) -> Result<(), NoMemory>
        ensures { OnOk result (self.new ≡ self.old ++ wide_port_names (port_name name) ext.now port.now) }
    {
        self.push(Role::DeclaresPort(name), &port.port)?;
        self.push(
            Role::Needs(port.range.high.value == ext.range.high.value),
            &port.port,
        )
    }

    // If there is a reset port, there is a reset list.
    fn reset_port(&mut self, port: &'m Option<Named>, has_list: bool) -> Result<(), NoMemory>
        ensures { OnOk result (self.new ≡ self.old ++ reset_port_names port.now has_list) }
    {
        match port {
            Some(name) => {
                self.push(Role::DeclaresPort(PortName::Rst), name)?;
                self.push(Role::Needs(has_list), name)
            }
            None => Ok(()),
        }
    }

    fn samples(&mut self, ports: &'m [VPort]) -> Result<(), NoMemory>
        ensures { OnOk result (self.new ≡ self.old ++ samples_names ports.now) }
    {
        for port in ports {
            self.push(Role::DeclaresSample, &port.port)?;
        }
        Ok(())
    }

    fn body(&mut self, alloc: Global, whole: &'m VModule) -> Result<(), NoMemory>
        ensures { OnOk result (self.new ≡ self.old ++ body_names whole.now) }
    {
        self.inits(whole.inits.as_slice())?;
        self.push(Role::UsesPort(PortName::Clk), &whole.clock)?;
        self.reset(alloc, whole.inits.as_slice(), &whole.reset)?;
        self.updates(whole.updates.as_slice())
    }

    fn reset(
        &mut self,
        alloc: Global,
        inits: &'m [Init],
        reset: &'m Option<ResetList>,
    ) -> Result<(), NoMemory>
        ensures { OnOk result (self.new ≡ self.old ++ reset_names inits.now reset.now) }
    {
        match reset {
            Some(list) => {
                self.push(Role::UsesPort(PortName::Rst), &list.reset)?;
                let starts = Starts::new(alloc, inits)?;
                self.values(&starts, list.values.as_slice())
            }
            None => Ok(()),
        }
    }

    fn values(&mut self, starts: &Starts<'m>, values: &'m [ResetValue]) -> Result<(), NoMemory>
        ensures { OnOk result (self.new ≡ self.old ++ values_by (found starts.now) values.now) }
    {
        for value in values {
            self.push(Role::ResetsReg, &value.name)?;
            self.push(
                Role::Needs(starts_so(starts, &value.name.name, value.value.literal)),
                &value.name,
            )?;
        }
        Ok(())
    }

    fn push(&mut self, role: Role, named: &'m Named) -> Result<(), NoMemory>
        ensures { OnOk result (self.new ≡ self.old ++ occurs (role_of role) named.now ∷ []) }
    {
        self.list.push(Occurrence { role, named })?;
        Ok(())
    }

    fn items(&mut self, items: &'m [Item]) -> Result<(), NoMemory>
        ensures { OnOk result (self.new ≡ self.old ++ items_names items.now) }
    {
        for item in items {
            self.item(item)?;
        }
        Ok(())
    }

    fn item(&mut self, item: &'m Item) -> Result<(), NoMemory>
        ensures { OnOk result (self.new ≡ self.old ++ item_names item.now) }
    {
        match item {
            Item::Reg(_, name) => self.push(Role::DeclaresReg, name),
            Item::File(_, name, _) => self.push(Role::DeclaresFile, name),
            Item::Integer(name) => self.push(Role::DeclaresInteger, name),
            Item::Wire(_, name) => self.push(Role::DeclaresWire, name),
            Item::Assign(target, right) => {
                self.push(Role::Gives, target)?;
                self.right(target, right)?;
                self.push(Role::IsGiven, target)
            }
        }
    }

    fn right(&mut self, target: &'m Named, right: &'m Right) -> Result<(), NoMemory>
        ensures { OnOk result (self.new ≡ self.old ++ right_names target.now right.now) }
    {
        let is_output = is_output(target.name.bytes());
        match right {
            Right::Name(name) => self.push(source_role(is_output), name),
            _ => {
                if is_output {
                    self.push(Role::GivesNoWire, target)?;
                }
                self.operands(right)
            }
        }
    }

    fn operands(&mut self, right: &'m Right) -> Result<(), NoMemory>
        ensures { OnOk result (self.new ≡ self.old ++ operands right.now) }
    {
        match right {
            Right::Literal(_) | Right::Name(_) => Ok(()),
            Right::Not(a) | Right::Slice(a, _, _) => self.push(Role::UsesWire, a),
            Right::Binary(_, a, b) => self.two_wires(a, b),
            Right::Choice(test, a, b) => {
                self.push(Role::UsesWire, test)?;
                self.two_wires(a, b)
            }
            Right::Word(file, address) => {
                self.push(Role::UsesFile, file)?;
                self.push(Role::UsesWire, address)
            }
            Right::Concat(parts) => self.wires(parts.as_slice()),
        }
    }

    fn two_wires(&mut self, first: &'m Named, second: &'m Named) -> Result<(), NoMemory>
        ensures { OnOk result (self.new ≡ self.old ++ (occurs uses_wire first.now ∷ occurs uses_wire second.now ∷ [])) }
    {
        self.push(Role::UsesWire, first)?;
        self.push(Role::UsesWire, second)
    }

    fn wires(&mut self, parts: &'m [Named]) -> Result<(), NoMemory>
        ensures { OnOk result (self.new ≡ self.old ++ wires_used parts.now) }
    {
        for part in parts {
            self.push(Role::UsesWire, part)?;
        }
        Ok(())
    }

    fn inits(&mut self, inits: &'m [Init]) -> Result<(), NoMemory>
        ensures { OnOk result (self.new ≡ self.old ++ inits_names inits.now) }
    {
        for init in inits {
            self.init(init)?;
        }
        Ok(())
    }

    fn init(&mut self, init: &'m Init) -> Result<(), NoMemory>
        ensures { OnOk result (self.new ≡ self.old ++ init_names init.now) }
    {
        match init {
            Init::Reg(name, _) => self.push(Role::StartsReg, name),
            Init::Word(name, _, _) => self.push(Role::StartsWord, name),
            Init::Fill(fill) => {
                self.counters(fill)?;
                self.push(Role::FillsFile, &fill.file)?;
                self.push(Role::UsesInteger, &fill.index)
            }
        }
    }

    // The counter, in the head of a loop.
    fn counters(&mut self, fill: &'m Fill) -> Result<(), NoMemory>
        ensures { OnOk result (self.new ≡ self.old ++ (occurs uses_integer fill.now.counter ∷ occurs uses_integer fill.now.tested ∷ occurs uses_integer fill.now.stepped ∷ occurs uses_integer fill.now.old ∷ [])) }
    {
        self.push(Role::UsesInteger, &fill.counter)?;
        self.push(Role::UsesInteger, &fill.tested)?;
        self.push(Role::UsesInteger, &fill.stepped)?;
        self.push(Role::UsesInteger, &fill.old)
    }

    fn updates(&mut self, updates: &'m [Update]) -> Result<(), NoMemory>
        ensures { OnOk result (self.new ≡ self.old ++ updates_names updates.now) }
    {
        for update in updates {
            self.update(update)?;
        }
        Ok(())
    }

    fn update(&mut self, update: &'m Update) -> Result<(), NoMemory>
        ensures { OnOk result (self.new ≡ self.old ++ update_names update.now) }
    {
        match update {
            Update::Reg(name, value) => {
                self.push(Role::UpdatesReg, name)?;
                self.push(Role::UsesWire, value)
            }
            Update::File(test, file, address, value) => {
                self.push(Role::UsesWire, test)?;
                self.push(Role::UpdatesFile, file)?;
                self.two_wires(address, value)
            }
        }
    }

    /// The names, as a list.
    pub fn list(&self) -> &[Occurrence<'m>]
        ensures { map occurrence_of result.now ≡ self.now }
    {
        self.list.as_slice()
    }
}

// Whether the register starts with this literal.
fn starts_so<'m>(starts: &Starts<'m>, name: &'m Label, literal: Literal) -> bool
    ensures { result ≡ is_literal (found starts.now name.now) literal }
{
    match starts.get(name) {
        Some(start) => start.width == literal.width && start.value == literal.value,
        None => false,
    }
}

fn source_role(is_output: bool) -> Role
    ensures { role_of result ≡ (if is_output then uses_wire else uses_source) }
{
    if is_output {
        Role::UsesWire
    } else {
        Role::UsesSource
    }
}
