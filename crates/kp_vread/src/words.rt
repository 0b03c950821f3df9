// The start words of a file.
ghost use Rattle.std.specs.Prelude.{◌≡◌, set as set_at, IfOk, length};
ghost use Rattle.kp_net.specs.Names.{same};
ghost use Rattle.kp_vlog.specs.Denote.{words_of, word_init};

use kp_base::{List, NoMemory};
use kp_net::Label;
use kp_vlog::Init;
use std::alloc::Global;

/// The start words of the file with this name, of which there are `count`. The only error is out of memory.
pub(crate) fn words(
    alloc: Global,
    inits: &[Init],
    count: usize,
    name: &Label,
) -> Result<List<u64>, NoMemory>
    ensures { IfOk result (λ w. w ≡ words_of inits.now count name.now) }
{
    let mut words = vec![in alloc; 0u64; count]?;
    for init in inits {
        put(&mut words, init, name);
    }
    Ok(List::new(words))
}

// Applies one line to them.
fn put(words: &mut Vec<u64>, init: &Init, name: &Label)
    ensures { words.new.items ≡ word_init (length words.old.items) name.now words.old.items init.now }
{
    match init {
        Init::Reg(_, _) => {}
        Init::Word(file, index, value) => {
            if name.bytes() == file.name.bytes() {
                set(words, index.value as usize, value.literal.value);
            }
        }
        Init::Fill(fill) => {
            if name.bytes() == fill.file.name.bytes() {
                words.as_mut_slice().fill(fill.value.literal.value);
            }
        }
    }
}

fn set(words: &mut Vec<u64>, index: usize, value: u64)
    ensures { words.new.items ≡ set_at words.old.items index value }
{
    if index < words.len() {
        words[index] = value;
    }
}
