// What changed from one state of a run to the next, as text.
ghost use Rattle.std.specs.Prelude.{◌≡◌, ◌<◌, ◌^◌, ℕ, length, get_or};
ghost use Rattle.std.specs.List.{All};
ghost use Rattle.kp_base.specs.Bytes.{Writes};
ghost use Rattle.kp_base.specs.Causes.{HasCause};
ghost use Rattle.kp_debug.specs.inner.Standing.{HasAddresses, IsFileOf};
ghost use Rattle.kp_machine.specs.Words.{target};
ghost use Rattle.kp_implements.specs.Shows.{IsOfJob};
ghost use Rattle.kp_report.specs.inner.Targets.{HasWords, IsSmall, StandsAt};
ghost use Rattle.kp_page.specs.States.{change_lines, changes_of, changes_of_words};
ghost use Rattle.kp_page.specs.inner.Seen.{seen, seen_before};

use crate::values::{
    file_named, register_named, register_shown, word_at, word_shown, words_before, write_change,
};
use kp_ast::Decl;
use kp_base::{Sink, SinkFault};
use kp_cycle::Sim;
use kp_frontend::Accepted;
use kp_report::{targets_in, write_register};

/// Writes the registers, and the words that differ from the state before; before the first cycle all of them are 0. A fault comes only from the
/// sink, which then has a prefix of the text.
pub(crate) fn write_changes<K: Sink>(
    is_first: bool,
    before: &Sim<'_>,
    now: &Sim<'_>,
    job: &Accepted,
    decls: &[Decl],
    sink: &mut K,
) -> Result<(), SinkFault>
    requires net { before.now.net ≡ now.now.net }
    requires of_job { IsOfJob now.now.net job.now.design.job }
    requires decls { decls.now ≡ job.now.design.job.decls }
    requires few { length decls.now < 2 ^ 32 }
    requires small { All IsSmall decls.now }
    requires some { All HasAddresses decls.now }
    ensures text { Writes (K.held sink.old) (K.held sink.new)
        (change_lines 0 (seen_before is_first job.now.design.job before.now) (seen job.now.design.job now.now) decls.now) result }
    ensures cause { HasCause (K.faults sink.old) (K.faults sink.new) result }
{
    let mut t = 0u32;
    for decl in decls {
        write_target(is_first, before, now, job, t, decl, sink)?;
        t += targets_in(decl);
    }
    Ok(())
}

// A register or file, which is target number `t`.
fn write_target<K: Sink>(
    is_first: bool,
    before: &Sim<'_>,
    now: &Sim<'_>,
    job: &Accepted,
    t: u32,
    decl: &Decl,
    sink: &mut K,
) -> Result<(), SinkFault>
    requires net { before.now.net ≡ now.now.net }
    requires of_job { IsOfJob now.now.net job.now.design.job }
    requires stands { StandsAt job.now.design.job t decl.now }
    requires some { HasAddresses decl.now }
    ensures text { Writes (K.held sink.old) (K.held sink.new)
        (changes_of decl.now (seen_before is_first job.now.design.job before.now t) (seen job.now.design.job now.now t)) result }
    ensures cause { HasCause (K.faults sink.old) (K.faults sink.new) result }
{
    let net = now.netlist();
    match decl {
        Decl::Reg(name, _, _) => {
            let number = register_named(net, &name.name);
            let value = register_shown(now, job, t, number);
            write_register(name.name.bytes(), value, None, sink)
        }
        Decl::File(name, _, address) => {
            let number = file_named(net, &name.name);
            let old = words_before(is_first, before, job, t, number);
            let count = 1 << address.value;
            write_words(now, job, t, number, name.name.bytes(), count, old, sink)
        }
        _ => Ok(()),
    }
}

// The words of a file that differ from those of an earlier state.
fn write_words<K: Sink>(
    now: &Sim<'_>,
    job: &Accepted,
    t: u32,
    number: u32,
    name: &[u8],
    count: u32,
    old: &[u64],
    sink: &mut K,
) -> Result<(), SinkFault>
    requires of_job { IsOfJob now.now.net job.now.design.job }
    requires file { IsFileOf job.now.design.job now.now.net t number }
    requires words { HasWords job.now.design.job t count }
    ensures text { Writes (K.held sink.old) (K.held sink.new)
        (changes_of_words name.now (target job.now.design.job t).width (λ (a : ℕ). get_or old.now a 0) (seen job.now.design.job now.now t) 0 count) result }
    ensures cause { HasCause (K.faults sink.old) (K.faults sink.new) result }
{
    for address in 0..count {
        let value = word_shown(now, job, t, number, address);
        write_change(name, address, word_at(old, address), value, sink)?;
    }
    Ok(())
}
