// What is to be shown of a job.
ghost use Rattle.std.specs.Prelude.{◌≤◌, length};

/// What is to be shown of the job of a file.
#[derive(Clone, Copy)]
pub struct Task<'w> {
    pub order: Order<'w>,
    /// The file of the job, or `None` for standard input.
    pub file: Option<&'w String>,
}

/// What is to be written about a job: a word, with what it takes.
#[derive(Clone, Copy)]
pub enum Order<'w> {
    /// The pipeline diagram as text.
    Diagram(Run<'w>),
    /// The same from a later cycle on.
    Window(Later<'w>),
    /// The same from a cycle on, with labels beside the lines.
    Labelled(WithLabels<'w>),
    /// The same as a picture.
    Svg(Run<'w>),
    /// A run with the states of its cycles, as an HTML page.
    Page(Run<'w>),
    /// Where each read can take its value from, as a table, with names of the stages, or none.
    Paths(&'w [String]),
    /// The same as a picture.
    PathsSvg(&'w [String]),
    /// Why instructions wait or are squashed.
    Stalls(Cycles<'w>),
    /// The longest path of each stage.
    Depth(Memories),
}

/// Where the files of a job are, for the lengths of paths.
#[derive(Clone, Copy, PartialEq, Eq)]
pub enum Memories {
    /// In the circuit: a word of a file takes time.
    Inside,
    /// Outside of it, as block RAM: a word takes none, and an address ends a path.
    Outside,
}

/// A run that is listed.
#[derive(Clone, Copy)]
pub struct Cycles<'w> {
    /// The number of cycles, at most 100,000.
    pub count: u32,
    /// The names of the stages, as those of a `Run`.
    pub names: &'w [String],
    pub ghost few: { count ≤ 100000 },
}

/// A run that is drawn.
#[derive(Clone, Copy)]
pub struct Run<'w> {
    /// The number of cycles, at most 1,000.
    pub count: u32,
    /// The names of the stages, each of 1 to 8 letters, digits or `_`; or none. There may be more or fewer than stages.
    pub names: &'w [String],
    pub ghost few: { count ≤ 1000 },
}

/// A run that is drawn from a later cycle on.
#[derive(Clone, Copy)]
pub struct Later<'w> {
    /// The first cycle that is drawn, at most 1,000,000,000.
    pub from: u32,
    pub run: Run<'w>,
    pub ghost early: { from ≤ 1000000000 },
    pub ghost some: { 1 ≤ run.count },
}

/// A run that is drawn from a cycle on with labels, and with the lines of a listing.
#[derive(Clone, Copy)]
pub struct WithLabels<'w> {
    pub later: Later<'w>,
    /// The text that names the labels, of at most 16,777,216 bytes.
    pub label: &'w [u8],
    /// The file of the listing.
    pub file: Option<&'w String>,
    /// What this file has: nothing until it is read. At most 16,777,216 bytes.
    pub listing: &'w [u8],
    pub ghost short: { length label.now ≤ 16777216 },
    pub ghost few: { length listing.now ≤ 16777216 },
}

// The cycles of a window: the first of them, and how many there are.
#[derive(Clone, Copy)]
pub(crate) struct Span {
    pub from: u32,
    pub count: u32,
    pub ghost early: { from ≤ 1000000000 },
    pub ghost some: { 1 ≤ count },
    pub ghost few: { count ≤ 1000 },
}
