// The input of a program, and the end of its output.
ghost use Rattle.std.specs.Prelude.{◌≡◌, ◌⊎◌, IfErr};
ghost use Rattle.std.specs.declared.{io.ErrorKind.ErrorKind, result.Result.TheVariants.Err};
ghost use Rattle.kp_program.specs.Stops.{stop_at, unless_stopped};
ghost use Rattle.kp_program.specs.declared.stop.Stop.TheVariants.{Unwritten};

use crate::stop::{Stop, unless_stopped};
use kp_base::StdSink;
use std::fs::{self, OpenFile};
use std::io::{self, ErrorKind, Write};
use std::rt::Files;

/// The size of a page of output in bytes.
pub const PAGE: usize = 65_536;

/// The name of standard input in messages.
pub const STDIN: &str = "<stdin>";

/// The file of this name, to be read. A folder is none.
pub fn opened<'n, R: Files>(rt: &R, name: &'n str) -> Result<R::File, Stop<'n>>
    ensures { IfErr result (λ stop. (kind : ErrorKind) × (stop ≡ stop_at name.entry kind)) }
{
    match file_at(rt, name) {
        Ok(file) => Ok(file),
        Err(error) => Err(Stop::at(name, error.kind())),
    }
}

fn file_at<R: Files>(rt: &R, name: &str) -> io::Result<R::File> {
    let file = fs::open(rt, name)?;
    match file.metadata() {
        Ok(data) if data.is_dir() => Err(io::Error::from(ErrorKind::IsADirectory)),
        _ => Ok(file),
    }
}

/// The status of a top call over the input of this name, unless it says that reading, writing or an allocation failed, or its last page isn't written.
pub fn ended<'n, W: Write>(status: u8, name: &'n str, out: &mut StdSink<W>) -> Result<u8, Stop<'n>>
    ensures { (result ≡ unless_stopped name.entry status) ⊎ (result ≡ Err Unwritten) }
{
    match out.finish() {
        Ok(()) => unless_stopped(status, name),
        Err(_) => Err(Stop::Unwritten),
    }
}
