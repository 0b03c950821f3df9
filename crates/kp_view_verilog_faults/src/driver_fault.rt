// A violated rule of drivers: V5.
ghost use Rattle.std.specs.Prelude.{◌≡◌, option_map};
ghost use Rattle.kp_view_help.specs.Phrases.{printed};
ghost use Rattle.kp_view_verilog_faults.specs.Helps.{driver_help};

use crate::source::Source;
use kp_view_help::{Line, Word, sentences};
use kp_vread_rules::DriverFault;
use std::fmt;

// Writes the sentence for a violated rule of drivers, in a text with this name at its place.
pub(crate) fn write_driver<W: fmt::Write>(
    f: &mut fmt::Formatter<W>,
    source: Source<'_>,
    name: Word<'_>,
    fault: DriverFault,
) -> fmt::Result {
    sentences!(f, fault, {
        DriverFault::NeverAssigned => "`{name}` is assigned nowhere",
        DriverFault::NoValue => "the output `{name}` is assigned nowhere",
        DriverFault::Itself => "`{name}` is used in its own value",
        DriverFault::NoStart => "the register `{name}` has no start value under `initial`",
        DriverFault::NoUpdate => "the register `{name}` has no update under `always`",
        DriverFault::NoReset => "the register `{name}` isn't in the reset list",
        DriverFault::NoFill => "the file `{name}` has no `for` under `initial`",
        DriverFault::AssignedAgain { first } =>
            "`{name}` is assigned already in line {}" (source.line_at(first)),
        DriverFault::AssignedLate { assigned } =>
            "`{name}` is assigned only in line {}, after this use" (source.line_at(assigned)),
        DriverFault::StartedAgain { first } =>
            "`{name}` has a start value already in line {}" (source.line_at(first)),
        DriverFault::FilledLate =>
            "the `for` of the file `{name}` goes before its single words",
        DriverFault::FilledAgain { first } =>
            "the file `{name}` has a `for` already in line {}" (source.line_at(first)),
        DriverFault::ResetAgain { first } =>
            "`{name}` is in the reset list already in line {}" (source.line_at(first)),
        DriverFault::UpdatedAgain { first } =>
            "`{name}` is updated already in line {}" (source.line_at(first)),
        DriverFault::Wide => "`{name}` has another width than `ext`",
        DriverFault::NoResetList => "the module has the port `rst`, and no reset list",
        DriverFault::OtherStart { start } =>
            "`{name}` has another value here than its start value in line {}" (source.line_at(start)),
    })
}

// What helps where this name violates a rule of drivers, if anything is known to.
pub(crate) fn driver_help<'t>(name: Word<'t>, fault: DriverFault) -> Option<Line<'t>>
    ensures { option_map printed result ≡ driver_help name.entry.0.now fault }
{
    match fault {
        DriverFault::NeverAssigned => Some(Line::of(
            "write `assign {} = ..;`, or remove the declaration",
            name,
        )),
        DriverFault::NoValue => Some(Line::of("write `assign {} = ..;`, with a wire", name)),
        DriverFault::Itself => Some(Line::plain(
            "a register has the value of the cycle before: `assign n0 = r_X;`",
        )),
        DriverFault::NoStart => Some(Line::of("write `{} = ..;` under `initial`", name)),
        DriverFault::NoUpdate => Some(Line::of("write `{} <= ..;` under `always`", name)),
        DriverFault::NoFill => Some(Line::of(
            "write `for (i = 0; i < ..; i = i + 1) {}[i] = ..;` under `initial`",
            name,
        )),
        DriverFault::UpdatedAgain { .. } | DriverFault::AssignedAgain { .. } => Some(Line::plain(
            "take one value by a choice: `n1 ? n2 : n3`",
        )),
        DriverFault::AssignedLate { .. } => Some(Line::plain(
            "the assignments are in the order in which the values are computed: move this one down",
        )),
        DriverFault::Wide => Some(Line::plain("`ext`, `full` and `ue` have a bit for each stage")),
        DriverFault::NoResetList => Some(Line::plain(
            "write `if (rst) begin`, the reset list, `end else begin`, the updates, `end`",
        )),
        _ => None,
    }
}
