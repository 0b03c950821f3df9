// The state in the current cycle of a session, as text.
ghost use Rattle.std.specs.Prelude.{◌≡◌, ◌<◌, ◌^◌, None, length};
ghost use Rattle.std.specs.List.{All};
ghost use Rattle.kp_base.specs.Bytes.{Writes};
ghost use Rattle.kp_base.specs.Causes.{HasCause};
ghost use Rattle.kp_net.specs.Netlist.{Net};
ghost use Rattle.kp_machine.specs.Words.{target};
ghost use Rattle.kp_implements.specs.Shows.{IsOfJob};
ghost use Rattle.kp_report.specs.States.{no_counts, lines_of_words, lines_of, state_lines};
ghost use Rattle.kp_report.specs.inner.Targets.{StandsAt, HasWords, IsSmall};
ghost use Rattle.kp_debug.specs.inner.Standing.{IsFileOf, HasAddresses, state_seen};

use crate::numbers::{file_named, register_named};
use crate::session::Session;
use crate::values::{register_shown, word_shown};
use kp_ast::Decl;
use kp_base::{Sink, SinkFault};
use kp_frontend::Accepted;
use kp_net::Netlist;
use kp_report::{targets_in, write_register, write_word};

/// Writes each register and file in the order of declaration. A fault comes only from the sink, which then has a prefix of the text.
pub(crate) fn write_state<K: Sink>(
    session: &Session<'_>,
    net: &Netlist,
    job: &Accepted,
    decls: &[Decl],
    sink: &mut K,
) -> Result<(), SinkFault>
    requires net { session.now.net ≡ net.now }
    requires of_job { IsOfJob session.now.net job.now.design.job }
    requires decls { decls.now ≡ job.now.design.job.decls }
    requires few { length decls.now < 2 ^ 32 }
    requires small { All IsSmall decls.now }
    requires some { All HasAddresses decls.now }
    ensures text { Writes (K.held sink.old) (K.held sink.new) (state_lines 0 no_counts (state_seen job.now.design.job session.now) decls.now) result }
    ensures cause { HasCause (K.faults sink.old) (K.faults sink.new) result }
{
    let mut t = 0u32;
    for decl in decls {
        write_target(session, net, job, t, decl, sink)?;
        t += targets_in(decl);
    }
    Ok(())
}

// A register or file, which is target number `t`.
fn write_target<K: Sink>(
    session: &Session<'_>,
    net: &Netlist,
    job: &Accepted,
    t: u32,
    decl: &Decl,
    sink: &mut K,
) -> Result<(), SinkFault>
    requires net { session.now.net ≡ net.now }
    requires of_job { IsOfJob session.now.net job.now.design.job }
    requires stands { StandsAt job.now.design.job t decl.now }
    requires some { HasAddresses decl.now }
    ensures text { Writes (K.held sink.old) (K.held sink.new) (lines_of decl.now None (state_seen job.now.design.job session.now t)) result }
    ensures cause { HasCause (K.faults sink.old) (K.faults sink.new) result }
{
    match decl {
        Decl::Reg(name, _, _) => {
            let number = register_named(net, &name.name);
            let value = register_shown(session, job, t, number);
            write_register(name.name.bytes(), value, None, sink)
        }
        Decl::File(name, _, address) => {
            let number = file_named(net, &name.name);
            let count = 1 << address.value;
            write_words(session, job, t, number, name.name.bytes(), count, sink)
        }
        _ => Ok(()),
    }
}

// The words of a file that are not 0.
fn write_words<K: Sink>(
    session: &Session<'_>,
    job: &Accepted,
    t: u32,
    number: u32,
    name: &[u8],
    count: u32,
    sink: &mut K,
) -> Result<(), SinkFault>
    requires of_job { IsOfJob session.now.net job.now.design.job }
    requires file { IsFileOf job.now.design.job session.now.net t number }
    requires words { HasWords job.now.design.job t count }
    ensures text { Writes (K.held sink.old) (K.held sink.new) (lines_of_words name.now (target job.now.design.job t).width None
        (state_seen job.now.design.job session.now t) 0 count) result }
    ensures cause { HasCause (K.faults sink.old) (K.faults sink.new) result }
{
    for address in 0..count {
        let value = word_shown(session, job, t, number, address);
        write_word(name, address, value, None, sink)?;
    }
    Ok(())
}
