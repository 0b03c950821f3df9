// The run of a job from a cycle on.
ghost use Rattle.std.specs.Prelude.{◌≡◌, ◌+◌, ◌<◌, ◌≤◌, ◌^◌, ◌++◌, ◌∷◌, [], ℕ, All, Bool, IfOk, IfSome, List, OnOk, get_or, length, map, string_bytes, take, true};
ghost use Rattle.kp_base.specs.declared.row.Row.{Row as Masks};
ghost use Rattle.kp_sched.specs.Monitors.{HasSeen};
ghost use Rattle.kp_sched.specs.Rows.{bit_of, row_seen};
ghost use Rattle.kp_net.specs.Netlist.{run};
ghost use Rattle.kp_implements.specs.Shows.{Shows};
ghost use Rattle.kp_run.specs.Cycles.{after_cycles, inputs_to};
ghost use Rattle.kp_stage.specs.Start.{stall_word};
ghost use Rattle.kp_diagram.specs.Flights.{advanced, kept as with_place, moved};
ghost use Rattle.kp_diagram_text.specs.Charts.{IsDrawable, are_names};
ghost use Rattle.kp_diagram_text.specs.Windows.{IsWindow, placed_seen, window_figure};
ghost use Rattle.kp_diagram_text.specs.declared.window.Window.{Window as Carried};
ghost use Rattle.kp_diagram_run.specs.{Windows.IsCarried, Windows.IsWindowOf, Windows.job_window, inner.Walks.IsWalked, inner.Walks.IsRecorded, inner.Walks.no_placed};

use kp_base::{NoMemory, Row};
use kp_bits::Bits;
use kp_cycle::Sim;
use kp_diagram_text::{Chart, Loss, Placed, fetches_next, losses_after, next_place};
use kp_frontend::Accepted;
use kp_run::laws::{a_job_gives_its_own_inputs, a_run_shows_the_pipeline};
use kp_run::{monitor_of, next_cycle};
use kp_sched::Monitor;
use kp_synth::synth;
use std::alloc::Global;

/// The rows and the stall words of the cycles of a window, the number of the instruction in stage 0 in each of them, the instructions in flight in the first
/// cycle, the oldest first, and why each stage is empty there, if it is.
#[derive(Drop)]
pub struct JobWindow {
    pub rows: Vec<Row>,
    pub words: Vec<u16>,
    pub numbers: Vec<u64>,
    pub flight: Vec<Placed>,
    pub losses: [Loss; 12],
}

// What a run carries from cycle to cycle.
#[derive(Drop)]
pub(crate) struct Walk {
    pub monitor: Monitor,
    pub flight: Vec<Placed>,
    pub losses: [Loss; 12],
}

/// Runs the pipelined machine of a job as far as `count` cycles from cycle `from` on, under the job's own stall words and samples. Of the cycles before
/// nothing is kept but what the run carries. The only error is out of memory.
pub fn run_window(
    alloc: Global,
    job: &Accepted,
    from: u32,
    count: u32,
) -> Result<JobWindow, NoMemory>
    requires early { from ≤ 1000000000 }
    requires few { count ≤ 100000 }
    ensures { IfOk result (λ w. IsWindowOf job.now.design.job from count w) }
{
    // The invariant of the type, for the proof only.
    let _kept = job.design.job();
    a_run_shows_the_pipeline(job);
    let net = synth(alloc, &job.design, &job.sections.start)?;
    let mut sim = Sim::open(alloc, &net)?;
    let mut samples = job.sections.inputs.row(alloc, 0)?;
    let room = samples.as_mut_slice();
    let mut walk = begin(alloc, job)?;
    pass_all(job, &mut sim, room, from, &mut walk)?;
    recorded(alloc, job, &mut sim, room, from, count, walk)
}

// Before the first cycle.
fn begin(alloc: Global, job: &Accepted) -> Result<Walk, NoMemory>
    ensures { IfOk result (λ w. (ext : ℕ → ℕ → Bool) → IsWalked job.now.design.job.stages.value ext [] w) }
{
    // The invariant of the type, for the proof only.
    let _kept = job.design.job();
    let mut flight = Vec::new(alloc);
    flight.push(Placed {
        number: 0,
        stage: 0,
    })?;
    Ok(Walk {
        monitor: monitor_of(&job.design),
        flight,
        losses: [Loss::Filling; 12],
    })
}

// Runs the first `from` cycles.
fn pass_all(
    job: &Accepted,
    sim: &mut Sim<'_>,
    room: &mut [Bits],
    from: u32,
    walk: &mut Walk,
) -> Result<(), NoMemory>
    requires early { from ≤ 1000000000 }
    requires shows { Shows sim.old.net job.now.design.job }
    requires at { sim.old ≡ after_cycles job.now.design.job sim.old.net 0 }
    requires room { length room.old ≡ length job.now.sections.inputs }
    requires walked { IsWalked job.now.design.job.stages.value (λ T. bit_of (stall_word job.now.design.job T)) [] walk.old }
    ensures at { OnOk result (sim.new ≡ after_cycles job.now.design.job sim.old.net from) }
    ensures room { OnOk result (length room.new ≡ length room.old) }
    ensures walked { OnOk result (IsWalked job.now.design.job.stages.value (λ T. bit_of (stall_word job.now.design.job T))
        (run sim.old.net (inputs_to job.now.design.job from)).rows walk.new) }
{
    // The invariant of the type, for the proof only.
    let _kept = job.design.job();
    for cycle in 0..from {
        let word = job.sections.stalls.word(u64::from(cycle));
        let row = next_cycle(sim, job, room, cycle);
        walk.pass(word, row)?;
    }
    Ok(())
}

impl Walk {
    // One cycle more.
    fn pass(&mut self, word: u16, row: Row) -> Result<(), NoMemory>
        requires few { self.old.monitor.cycles < 2 ^ 32 }
        requires some { 2 ≤ self.old.monitor.stages }
        requires twelve { length self.old.losses ≡ 12 }
        requires within { All (λ (p : Placed). p.stage < self.old.monitor.stages) self.old.flight.items }
        ensures { OnOk result ((n : ℕ) (ext : ℕ → ℕ → Bool) (rows : List Masks) → ext (length rows) ≡ bit_of word → IsWalked n ext rows self.old
            → IsWalked n ext (rows ++ row ∷ []) self.new) }
    {
        let stages = self.monitor.stages();
        self.losses = losses_after(stages - 1, word, row, &self.losses);
        self.monitor.cycle(row);
        let number = self.monitor.count(0);
        advance(&mut self.flight, stages, row, number)?;
        Ok(())
    }
}

// The instructions in flight after a cycle, and the one that enters stage 0 then, if any, with this number.
fn advance(flight: &mut Vec<Placed>, stages: u8, row: Row, number: u64) -> Result<(), NoMemory>
    requires some { 2 ≤ stages }
    requires few { stages ≤ 12 }
    requires within { All (λ (p : Placed). p.stage < stages) flight.old.items }
    ensures flight { OnOk result (map placed_seen flight.new.items ≡ advanced stages (row_seen stages row) number (map placed_seen flight.old.items)) }
    ensures within { OnOk result (All (λ (p : Placed). p.stage < stages) flight.new.items) }
{
    move_on(flight, stages, row);
    if fetches_next(stages, row) {
        flight.push(Placed { number, stage: 0 })?;
    }
    Ok(())
}

// The instructions that are still in a stage after a cycle.
fn move_on(flight: &mut Vec<Placed>, stages: u8, row: Row)
    requires few { stages ≤ 12 }
    requires within { All (λ (p : Placed). p.stage < stages) flight.old.items }
    ensures flight { map placed_seen flight.new.items ≡ moved stages (row_seen stages row) (map placed_seen flight.old.items) }
    ensures within { All (λ (p : Placed). p.stage < stages) flight.new.items }
{
    let mut kept = 0;
    for i in 0..flight.len() {
        let placed = flight[i];
        let place = next_place(stages, row, placed.stage);
        kept = keep(flight, kept, placed.number, place);
    }
    flight.truncate(kept);
}

// Puts an instruction that is still in a stage after the first `kept` of a list. Returns how many there are then.
fn keep(flight: &mut Vec<Placed>, kept: usize, number: u64, place: Option<u8>) -> usize
    requires { kept < length flight.old.items }
    ensures few { result ≤ kept + 1 }
    ensures many { length flight.new.items ≡ length flight.old.items }
    ensures front { map placed_seen (take result flight.new.items) ≡ map placed_seen (take kept flight.old.items) ++ with_place number place [] }
    ensures rest { (j : ℕ) → kept < j → get_or flight.new.items j no_placed ≡ get_or flight.old.items j no_placed }
    ensures within { (n : ℕ) → IfSome place (λ k. k < n) → All (λ (p : Placed). p.stage < n) flight.old.items → All (λ (p : Placed). p.stage < n) flight.new.items }
{
    match place {
        Some(stage) => {
            flight[kept] = Placed { number, stage };
            kept + 1
        }
        None => kept,
    }
}

// Runs `count` cycles from cycle `from` on, and records them.
fn recorded(
    alloc: Global,
    job: &Accepted,
    sim: &mut Sim<'_>,
    room: &mut [Bits],
    from: u32,
    count: u32,
    walk: Walk,
) -> Result<JobWindow, NoMemory>
    requires early { from ≤ 1000000000 }
    requires few { count ≤ 100000 }
    requires shows { Shows sim.old.net job.now.design.job }
    requires at { sim.old ≡ after_cycles job.now.design.job sim.old.net from }
    requires room { length room.old ≡ length job.now.sections.inputs }
    requires walked { IsWalked job.now.design.job.stages.value (λ T. bit_of (stall_word job.now.design.job T))
        (run sim.old.net (inputs_to job.now.design.job from)).rows walk }
    ensures { IfOk result (λ w. IsRecorded job.now.design.job sim.old.net from count walk w) }
{
    // The invariant of the type, for the proof only.
    let _kept = job.design.job();
    let Walk {
        mut monitor,
        flight,
        losses,
    } = walk;
    let mut rows = Vec::new(alloc);
    let mut words = Vec::new(alloc);
    let mut numbers = Vec::new(alloc);
    for cycle in 0..count {
        let at = from + cycle;
        numbers.push(monitor.count(0))?;
        words.push(job.sections.stalls.word(u64::from(at)))?;
        let row = next_cycle(sim, job, room, at);
        rows.push(row)?;
        monitor.cycle(row);
    }
    Ok(JobWindow {
        rows,
        words,
        numbers,
        flight,
        losses,
    })
}

/// The chart of a window of a run of a job, with names of the stages or none.
pub fn window_chart<'a>(job: &'a Accepted, run: &'a JobWindow, names: &'a [String]) -> Chart<'a>
    ensures drawable { (from n : ℕ) → IsWindowOf job.now.design.job from n run.now → n ≤ 100000
        → are_names (map string_bytes names.now) job.now.design.job.stages.value ≡ true → IsDrawable result }
    ensures window { (from n : ℕ) (w : Carried) → IsWindowOf job.now.design.job from n run.now → 1 ≤ n → from ≤ 1000000000 → IsCarried run.now from w
        → IsWindow result w }
    ensures figure { (from n : ℕ) (w : Carried) → IsWindowOf job.now.design.job from n run.now → 1 ≤ n → IsCarried run.now from w
        → window_figure result w ≡ job_window (map string_bytes names.now) from n job.now.design.job }
{
    a_job_gives_its_own_inputs(job);
    let tree = job.design.job();
    let stages = tree.stages.value as u8;
    let rows = run.rows.as_slice();
    let words = run.words.as_slice();
    Chart {
        name: tree.name.name.bytes(),
        stages,
        rows,
        words,
        names,
    }
}
