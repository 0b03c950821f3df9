//! What the sequential machine reported of an instruction.
ghost use Rattle.std.specs.Prelude.{◌≡◌, ◌<◌, ◌^◌, None, IfOk, length, get_or};
ghost use Rattle.kp_sites.specs.Reports.{is_ready, may_write};

use crate::sites::Writer;
use kp_base::NoMemory;
use kp_seq::SeqMachine;
use std::alloc::Global;
use std::marker::Model;

/// The addresses of its reads and of its results, and the stages in which the results were set, each by number.
pub struct Reported {
    reads: Vec<Option<u32>>,
    writes: Vec<Option<u32>>,
    settings: Vec<u8>,
}

impl Drop for Reported {
    fn drop(self) {
        let Reported {
            reads,
            writes,
            settings,
        } = self;
        drop(reads);
        drop(writes);
        drop(settings);
    }
}

impl Model for Reported {
    ghost use Rattle.kp_seq.specs.Recorded.{Recorded};

    ghost Value = { Recorded };

    ghost view = { λ f. record { reads = f.reads.items; writes = f.writes.items; settings = f.settings.items } };
}

impl Reported {
    /// An empty report of an instruction with the given numbers of reads and results. The only error is out of memory.
    pub fn new(alloc: Global, reads: usize, results: usize) -> Result<Reported, NoMemory>
        ensures reads { IfOk result (λ f. length f.reads ≡ reads) }
        ensures writes { IfOk result (λ f. length f.writes ≡ results) }
        ensures settings { IfOk result (λ f. length f.settings ≡ results) }
    {
        Ok(Reported {
            reads: vec![in alloc; None; reads]?,
            writes: vec![in alloc; None; results]?,
            settings: vec![in alloc; 0; results]?,
        })
    }

    /// The address of a read, if its condition was true.
    pub fn read(&self, number: usize) -> Option<u32>
        ensures { result ≡ get_or self.now.reads number None }
    {
        if number < self.reads.len() {
            self.reads[number]
        } else {
            None
        }
    }

    /// The address at which a result wrote, if it was enabled.
    pub fn write(&self, number: usize) -> Option<u32>
        ensures { result ≡ get_or self.now.writes number None }
    {
        if number < self.writes.len() {
            self.writes[number]
        } else {
            None
        }
    }

    /// The stage in which a result was set.
    pub fn setting(&self, number: usize) -> u8
        ensures { result ≡ get_or self.now.settings number 0 }
    {
        if number < self.settings.len() {
            self.settings[number]
        } else {
            0
        }
    }

    /// Copies what a machine reports about its last instruction.
    pub fn take(&mut self, machine: &SeqMachine)
        requires reads { length self.old.reads ≡ length machine.now.last.reads }
        requires writes { length self.old.writes ≡ length machine.now.last.writes }
        requires settings { length self.old.settings ≡ length machine.now.last.settings }
        requires few_reads { length self.old.reads < 2 ^ 32 }
        requires few_writes { length self.old.writes < 2 ^ 32 }
        requires few_settings { length self.old.settings < 2 ^ 32 }
        ensures { self.new ≡ machine.now.last }
    {
        take_reads(self.reads.as_mut_slice(), machine);
        take_writes(self.writes.as_mut_slice(), machine);
        take_settings(self.settings.as_mut_slice(), machine);
    }
}

impl Writer {
    /// Whether an instruction in stage k may write the target at an address, by what was reported of it.
    pub fn may_write(self, reported: &Reported, k: usize, address: u32) -> bool
        ensures { result ≡ may_write self reported.now k address }
    {
        if self.known as usize > k {
            return true;
        }
        reported.write(self.result) == Some(address)
    }

    /// Whether its result is ready in stage k, which moves its instruction on or not.
    pub fn is_ready(self, reported: &Reported, k: usize, moves: bool) -> bool
        ensures { result ≡ is_ready self reported.now k moves }
    {
        if self.known as usize > k {
            return false;
        }
        let setting = usize::from(reported.setting(self.result));
        setting < k || (setting == k && moves)
    }
}

fn take_reads(reads: &mut [Option<u32>], machine: &SeqMachine)
    requires same { length reads.old ≡ length machine.now.last.reads }
    requires few { length reads.old < 2 ^ 32 }
    ensures { reads.new ≡ machine.now.last.reads }
{
    for i in 0..reads.len() {
        reads[i] = machine.reads(i as u32);
    }
}

fn take_writes(writes: &mut [Option<u32>], machine: &SeqMachine)
    requires same { length writes.old ≡ length machine.now.last.writes }
    requires few { length writes.old < 2 ^ 32 }
    ensures { writes.new ≡ machine.now.last.writes }
{
    for i in 0..writes.len() {
        writes[i] = machine.writes(i as u32);
    }
}

fn take_settings(settings: &mut [u8], machine: &SeqMachine)
    requires same { length settings.old ≡ length machine.now.last.settings }
    requires few { length settings.old < 2 ^ 32 }
    ensures { settings.new ≡ machine.now.last.settings }
{
    for i in 0..settings.len() {
        settings[i] = machine.setting(i as u32);
    }
}
