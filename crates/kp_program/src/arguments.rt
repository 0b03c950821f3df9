// The words of a command line.
use kp_base::NoMemory;
use std::env;
use std::env::Env;
use std::io::ErrorKind;

/// The arguments after the program's name. If one isn't UTF-8, two empty arguments are returned in place of all of them, which no program accepts.
/// The only error is out of memory.
pub fn words(rt: &(impl Env + AllocGlobal)) -> Result<Vec<String>, NoMemory> {
    let mut words = Vec::new(rt.alloc());
    match env::args(rt) {
        Ok(args) => {
            for word in args.skip(1) {
                words.push(word)?;
            }
        }
        Err(error) if error.kind() == ErrorKind::OutOfMemory => return Err(NoMemory),
        Err(_) => {
            words.push(String::new(rt.alloc()))?;
            words.push(String::new(rt.alloc()))?;
        }
    }
    Ok(words)
}
