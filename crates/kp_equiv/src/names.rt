// Names that are looked up in about constant time.
ghost use Rattle.std.specs.Prelude.{◌≡◌, ◌<◌, ◌≤◌, ℕ, List, map, length, IfOk, MatchOption};
ghost use Rattle.kp_net.specs.Names.{among, Differ};
ghost use Rattle.kp_equiv.specs.Classes.{place};
ghost use Rattle.kp_equiv.specs.inner.Indexed.{HasIndices};

use kp_base::NoMemory;
use kp_net::{Key, Label, NetFile, NetReg, Port};
use std::alloc::Global;
use std::collections::HashMap;
use std::marker::Model;

/// Names with their indices, looked up in about constant time. Contracts see the list of them.
pub struct Names<'m> {
    names: Vec<&'m Label>,
    indices: HashMap<Key<'m>, usize>,
}

impl Drop for Names<'_> {
    fn drop(self) {
        let Names { names, indices } = self;
        drop(names);
        drop(indices);
    }
}

impl<'m> Model for Names<'m> {
    ghost use Rattle.std.specs.Prelude.{List, ℕ, map};
    ghost use Rattle.kp_equiv.specs.inner.Indexed.{HasIndices};

    ghost Value = { List (List ℕ) };

    ghost view = { λ s. map (λ l. l.now) s.names.items };

    ghost invariant = { λ s. HasIndices s.indices.entries 0 (map (λ l. l.now) s.names.items) };
}

impl<'m> Names<'m> {
    /// The names of registers. The only error is out of memory.
    pub fn of_regs(alloc: Global, regs: &'m [NetReg]) -> Result<Names<'m>, NoMemory>
        requires { Differ (map (λ r. r.name) regs.now) }
        ensures { IfOk result (λ n. n ≡ map (λ r. r.name) regs.now) }
    {
        let mut names = Vec::new(alloc);
        for reg in regs {
            names.push(&reg.name)?;
        }
        Names::of(alloc, names)
    }

    /// The names of files. The only error is out of memory.
    pub fn of_files(alloc: Global, files: &'m [NetFile]) -> Result<Names<'m>, NoMemory>
        requires { Differ (map (λ f. f.name) files.now) }
        ensures { IfOk result (λ n. n ≡ map (λ f. f.name) files.now) }
    {
        let mut names = Vec::new(alloc);
        for file in files {
            names.push(&file.name)?;
        }
        Names::of(alloc, names)
    }

    /// The names of sample ports. The only error is out of memory.
    pub fn of_samples(alloc: Global, samples: &'m [Port]) -> Result<Names<'m>, NoMemory>
        requires { Differ (map (λ s. s.name) samples.now) }
        ensures { IfOk result (λ n. n ≡ map (λ s. s.name) samples.now) }
    {
        let mut names = Vec::new(alloc);
        for sample in samples {
            names.push(&sample.name)?;
        }
        Names::of(alloc, names)
    }

    fn of(alloc: Global, names: Vec<&'m Label>) -> Result<Names<'m>, NoMemory>
        ensures { IfOk result (λ n. n ≡ map (λ l. l.now) names.entry.items) }
    {
        let indices = indices_of(alloc, names.as_slice())?;
        Ok(Names { names, indices })
    }

    /// The index of a name, if it is present.
    pub fn find(&self, name: &Label) -> Option<usize>
        ensures { MatchOption result (place self.now name.now ≡ length self.now) (λ i. (i < length self.now) × (place self.now name.now ≡ i)) }
    {
        self.indices.get(&Key::new(name)).copied()
    }

    /// Whether a name is present.
    pub fn has(&self, name: &Label) -> bool
        ensures { result ≡ among self.now name.now }
    {
        self.indices.contains_key(&Key::new(name))
    }

    /// The index of a name, or the number of names if it isn't present.
    pub(crate) fn place(&self, name: &Label) -> u32
        requires { length self.now ≤ 16777216 }
        ensures { result ≡ place self.now name.now }
    {
        match self.find(name) {
            Some(i) => i as u32,
            None => self.names.len() as u32,
        }
    }
}

// The indices of these names, from the last one on: the first index of a name counts.
fn indices_of<'m>(alloc: Global, names: &[&'m Label]) -> Result<HashMap<Key<'m>, usize>, NoMemory>
    ensures { IfOk result (λ m. HasIndices m.entries 0 (map (λ l. l.now) names.now)) }
{
    let mut indices = HashMap::new(alloc);
    let mut left = names.len();
    'names: while left > 0 {
        left -= 1;
        indices.insert(Key::new(names[left]), left)?;
    }
    Ok(indices)
}
