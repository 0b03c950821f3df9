// The role of a name.
ghost use Rattle.std.specs.Prelude.{◌≡◌};
ghost use Rattle.kp_vread_rules.specs.Ports.{port_name};

/// A port that every module has, or that each may have.
#[derive(Clone, Copy)]
pub enum PortName {
    Clk,
    Rst,
    Ext,
    Full,
    Ue,
    Back,
}

impl PortName {
    /// The name of the port.
    pub fn bytes(self) -> &'static [u8]
        ensures { result.now ≡ port_name self }
    {
        match self {
            PortName::Clk => b"clk",
            PortName::Rst => b"rst",
            PortName::Ext => b"ext",
            PortName::Full => b"full",
            PortName::Ue => b"ue",
            PortName::Back => b"back",
        }
    }
}

/// The role of a name. The last three follow a name, and are no names of their own.
#[derive(Clone, Copy)]
pub(crate) enum Role {
    NamesModule,
    DeclaresPort(PortName),
    DeclaresSample,
    DeclaresReg,
    DeclaresFile,
    DeclaresInteger,
    DeclaresWire,
    Gives,
    UsesWire,
    UsesSource,
    UsesFile,
    UsesInteger,
    UsesPort(PortName),
    StartsReg,
    StartsWord,
    FillsFile,
    ResetsReg,
    UpdatesReg,
    UpdatesFile,
    GivesNoWire,
    IsGiven,
    Needs(bool),
}
