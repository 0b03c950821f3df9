// The value of a register, or of a word of a file.
ghost use Rattle.std.specs.Prelude.{◌≡◌};
ghost use Rattle.kp_bits.specs.Word.{word};
ghost use Rattle.kp_machine.specs.Words.{HasWord, target};
ghost use Rattle.kp_implements.specs.Shows.{IsOfJob};
ghost use Rattle.kp_debug.specs.inner.Standing.{IsRegisterOf, IsFileOf, state_seen};

use crate::session::Session;
use kp_bits::Bits;
use kp_frontend::Accepted;

/// The value of the register of a target, which is register `number` of the netlist.
pub(crate) fn register_shown(session: &Session<'_>, _job: &Accepted, _t: u32, number: u32) -> Bits
    requires of_job { IsOfJob session.now.net _job.now.design.job }
    requires register { IsRegisterOf _job.now.design.job session.now.net _t number }
    ensures { result ≡ word (target _job.now.design.job _t).width (state_seen _job.now.design.job session.now _t 0) }
{
    session.value(number)
}

/// The word of the file of a target, which is file `number` of the netlist.
pub(crate) fn word_shown(
    session: &Session<'_>,
    _job: &Accepted,
    _t: u32,
    number: u32,
    address: u32,
) -> Bits
    requires of_job { IsOfJob session.now.net _job.now.design.job }
    requires file { IsFileOf _job.now.design.job session.now.net _t number }
    requires there { HasWord _job.now.design.job _t address }
    ensures { result ≡ word (target _job.now.design.job _t).width (state_seen _job.now.design.job session.now _t address) }
{
    session.word(number, address)
}
