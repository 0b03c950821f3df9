// The start state of the machine of a job.
ghost use Rattle.std.specs.Prelude.{◌≡◌, ◌+◌, ◌^◌, ◌≤◌, ◌<◌, ℕ, IfOk, length, slice_index, map, option_map};
ghost use Rattle.std.specs.List.{All};
ghost use Rattle.kp_bits.specs.Word.{IsWord, word};
ghost use Rattle.kp_stage.specs.Start.{given_by, laid_over, start_regs, words_from, start_files, start_of, image_of};
ghost use Rattle.kp_image.specs.inner.{Fits.EndsWithin, Fits.StartFits, Laid.laid_from};

use crate::check::{entries, first_address};
use kp_ast::{Decl, Image, Job, Lit, Name};
use kp_base::{List, NoMemory};
use kp_bits::Bits;
use kp_stage::Start;
use std::alloc::Global;

/// The start state of a job whose sections violate no rule.
#[tactic(auto, unfolding(kp_stage::specs::Start::start_of))]
pub(crate) fn start_state(alloc: Global, job: &Job) -> Result<Start, NoMemory>
    requires { All (StartFits (image_of job.now)) job.now.decls }
    ensures { IfOk result (λ s. s ≡ start_of job.now) }
{
    let entries = entries(&job.image);
    let decls = job.decls.as_slice();
    let regs = registers(alloc, entries, decls)?;
    let files = files(alloc, entries, decls)?;
    Ok(Start {
        regs: List::new(regs),
        files: List::new(files),
    })
}

// A value for each register.
fn registers(alloc: Global, entries: &[Image], decls: &[Decl]) -> Result<Vec<Bits>, NoMemory>
    requires { All (StartFits entries.now) decls.now }
    ensures { IfOk result (λ regs. regs.items ≡ start_regs entries.now decls.now) }
{
    let mut regs = Vec::new(alloc);
    for decl in decls {
        if let Decl::Reg(name, width, start) = decl {
            let value = register_value(entries, &name.name, start.literal.value);
            regs.push(bits(width.value, value))?;
        }
    }
    Ok(regs)
}

fn bits(width: u64, value: u64) -> Bits
    requires { IsWord (word width value) }
    ensures { result ≡ word width value }
{
    Bits::new(width as u8, value).unwrap()
}

// The start value of a register: that of the last entry that writes it, else that of its declaration.
fn register_value(entries: &[Image], name: &Name, start: u64) -> u64
    ensures { result ≡ laid_over entries.now name.now 0 start }
{
    let mut value = start;
    for e in entries {
        if let Some(given) = given_first(e, name) {
            value = given;
        }
    }
    value
}

// The value that an entry writes to the word of a name at address 0.
fn given_first(e: &Image, name: &Name) -> Option<u64>
    ensures { result ≡ given_by e.now name.now 0 }
{
    if e.name.name != *name || first_address(e) != 0 {
        return None;
    }
    match e.values.as_slice().first() {
        Some(lit) => Some(lit.literal.value),
        None => None,
    }
}

// The words of each file.
fn files(alloc: Global, entries: &[Image], decls: &[Decl]) -> Result<Vec<List<u64>>, NoMemory>
    requires { All (StartFits entries.now) decls.now }
    ensures { IfOk result (λ files. files.items ≡ start_files entries.now decls.now) }
{
    let mut files = Vec::new(alloc);
    for decl in decls {
        if let Decl::File(name, _, address) = decl {
            let words = file_words(alloc, entries, &name.name, 1 << address.value)?;
            files.push(List::new(words))?;
        }
    }
    Ok(files)
}

// The words of a file, in linear time.
fn file_words(
    alloc: Global,
    entries: &[Image],
    name: &Name,
    count: usize,
) -> Result<Vec<u64>, NoMemory>
    requires { All (EndsWithin name.now count) entries.now }
    ensures { IfOk result (λ words. words.items ≡ words_from entries.now name.now 0 count) }
{
    let mut words = vec![in alloc; 0u64; count]?;
    for e in entries {
        if e.name.name == *name {
            lay(&mut words, first_address(e), e.values.as_slice());
        }
    }
    Ok(words)
}

// Writes values to the words from an address on.
fn lay(words: &mut [u64], address: u64, values: &[Lit])
    requires { address + length values.now ≤ length words.old }
    ensures { (x : ℕ) → slice_index words.new x ≡ laid_from values.now address x (slice_index words.old x) }
{
    let first = address as usize;
    for (i, lit) in values.iter().enumerate() {
        words[first + i] = lit.literal.value;
    }
}
