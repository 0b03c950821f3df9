// Where the parts of a picture are, in pixels.
ghost use Rattle.std.specs.Prelude.{◌≡◌, ◌≤◌};
ghost use Rattle.kp_paths.specs.Places.{height_of, landing as landing_at, level as level_at, line_in as line_at, middle as middle_of, right_end as right_end_of, row_height as height_of_row, width_of};

// The most stages.
const STAGES: usize = 12;

// Where the last row of a picture ends at the latest.
pub(crate) const LOWEST: usize = 60_000;

// The middle of the column of a stage.
pub(crate) fn middle(j: usize) -> usize
    ensures value { result ≡ middle_of j }
    ensures few { result ≤ 1265 }
{
    110 * j.min(STAGES - 1) + 55
}

// The end of n columns.
pub(crate) fn right_end(n: usize) -> usize
    ensures value { result ≡ right_end_of n }
    ensures few { result ≤ 1320 }
{
    110 * n.min(STAGES)
}

// The width of the picture, with a headline for a name of this many characters.
pub(crate) fn width(left: usize, n: usize, name: usize) -> usize
    requires left { left ≤ 1112 }
    requires name { name ≤ 64 }
    ensures { result ≡ width_of left n name }
{
    (left + right_end(n) + 20).max((10 * name + 360).max(700))
}

// The height of the picture.
pub(crate) fn height(low: usize) -> usize
    requires { low ≤ LOWEST }
    ensures { result ≡ height_of low }
{
    low + 104
}

// The height of a row with this many arrows.
pub(crate) fn row_height(arrows: usize) -> usize
    ensures value { result ≡ height_of_row arrows }
    ensures few { result ≤ 238 }
{
    16 * arrows.min(STAGES) + 46
}

// The line on which the stages of a row are.
pub(crate) fn line_in(top: usize, arrows: usize) -> usize
    requires { top ≤ LOWEST }
    ensures { result ≡ line_at top arrows }
{
    top + 16 * arrows.min(STAGES) + 26
}

// How far an arrow from stage j to stage k goes up.
pub(crate) fn level(k: usize, j: usize) -> usize
    ensures { result ≡ level_at k j }
{
    16 * j.saturating_sub(k).min(STAGES - 1) + 10
}

// Where it comes down.
pub(crate) fn landing(k: usize, j: usize) -> usize
    ensures { result ≡ landing_at k j }
{
    (middle(k) + 48).saturating_sub(8 * j.saturating_sub(k).min(STAGES - 1))
}
