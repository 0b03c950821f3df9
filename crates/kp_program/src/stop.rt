// Why a program stopped.
ghost use Rattle.std.specs.Prelude.{◌≡◌, IfErr, IfOk};
ghost use Rattle.kp_base.specs.{Bytes.Writes, Causes.HasCause};
ghost use Rattle.kp_program.specs.declared.stop.Stop.TheVariants as stops;
ghost use Rattle.kp_program.specs.Stops.{SaysOrFails, reason_of, reason_text, status_of, stop_at, stop_text, unless_stopped, unread_reason};

use kp_base::{NoMemory, Sink, SinkFault, write_pieces};
use std::io::ErrorKind;

/// Why nothing, or not all, was printed.
#[derive(Clone, Copy)]
pub enum Stop<'n> {
    /// The input of this name can't be read, for this reason.
    Unread { name: &'n str, kind: ErrorKind },
    Unwritten,
    NoMemory,
}

impl<'n> From<NoMemory> for Stop<'n> {
    ghost from_gives = { λ _ stop. stop ≡ stops.NoMemory };

    fn from(_: NoMemory) -> Self {
        Stop::NoMemory
    }
}

impl<'n> Stop<'n> {
    /// An error of this kind at the input of this name.
    pub fn at(name: &'n str, kind: ErrorKind) -> Self
        ensures { result ≡ stop_at name.entry kind }
    {
        match kind {
            ErrorKind::OutOfMemory => Stop::NoMemory,
            _ => Stop::Unread { name, kind },
        }
    }

    /// The status of the program.
    pub fn status(&self) -> u8
        ensures { result ≡ status_of self.now }
    {
        match self {
            Stop::Unread { .. } => 3,
            Stop::Unwritten => 4,
            Stop::NoMemory => 5,
        }
    }

    // Why nothing, or not all, was printed.
    fn reason(&self) -> &'static str
        ensures { result.now ≡ reason_of self.now }
    {
        match self {
            Stop::Unread { kind, .. } => unread_reason(*kind),
            Stop::Unwritten => "writing failed",
            Stop::NoMemory => "out of memory",
        }
    }

    fn say<K: Sink>(&self, program: &'n str, err: &mut K) -> Result<(), SinkFault>
        ensures text { Writes (K.held err.old) (K.held err.new) (stop_text program.now self.now) result }
        ensures cause { HasCause (K.faults err.old) (K.faults err.new) result }
    {
        let reason: &'n str = self.reason();
        match self {
            Stop::Unread { name, .. } => {
                let pieces = [
                    program.as_bytes(),
                    b": ".as_slice(),
                    name.as_bytes(),
                    b": ".as_slice(),
                    reason.as_bytes(),
                    b"\n".as_slice(),
                ];
                write_pieces(err, &pieces)
            }
            Stop::Unwritten => say_reason(program, reason, err),
            Stop::NoMemory => say_reason(program, reason, err),
        }
    }
}

fn say_reason<'n, K: Sink>(program: &'n str, reason: &'n str, err: &mut K) -> Result<(), SinkFault>
    ensures text { Writes (K.held err.old) (K.held err.new) (reason_text program.now reason.now) result }
    ensures cause { HasCause (K.faults err.old) (K.faults err.new) result }
{
    let pieces = [
        program.as_bytes(),
        b": ".as_slice(),
        reason.as_bytes(),
        b"\n".as_slice(),
    ];
    write_pieces(err, &pieces)
}

// Why an input can't be read.
fn unread_reason(kind: ErrorKind) -> &'static str
    ensures { result.now ≡ unread_reason kind }
{
    match kind {
        ErrorKind::NotFound => "there is no such file",
        ErrorKind::PermissionDenied => "it may not be read",
        ErrorKind::IsADirectory => "it is a folder",
        ErrorKind::InvalidData => "it has more than 16,777,216 bytes",
        _ => "reading failed",
    }
}

/// The status of a top call over the input of this name, unless it says that reading, writing or an allocation failed.
pub fn unless_stopped(status: u8, name: &str) -> Result<u8, Stop<'_>>
    ensures { result ≡ unless_stopped name.entry status }
{
    match status {
        3 => Err(Stop::Unread {
            name,
            kind: ErrorKind::Other,
        }),
        4 => Err(Stop::Unwritten),
        5 => Err(Stop::NoMemory),
        _ => Ok(status),
    }
}

/// The status of a program that ended so. Where it stopped, standard error says why. The status says the same, so a failure of that is ignored.
#[tactic(auto, using(crate::proofs::Saying::says))]
pub fn status_after<'n, K: Sink>(program: &'n str, end: Result<u8, Stop<'n>>, err: &mut K) -> u8
    ensures done { IfOk end.entry (λ status. (result ≡ status) × (err.new ≡ err.old)) }
    ensures stopped { IfErr end.entry (λ stop. result ≡ status_of stop) }
    ensures said { IfErr end.entry (λ stop. SaysOrFails K.held K.faults err.old err.new (stop_text program.now stop)) }
{
    match end {
        Ok(status) => status,
        Err(stop) => {
            let _ = stop.say(program, err);
            stop.status()
        }
    }
}
