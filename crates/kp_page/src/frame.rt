// The parts of a page before and after the states.
ghost use Rattle.std.specs.Prelude.{[], ◌++◌, ◌≤◌, length};
ghost use Rattle.kp_base.specs.Bytes.{Writes};
ghost use Rattle.kp_base.specs.Causes.{HasCause};
ghost use Rattle.kp_diagram_svg.specs.Picture.{svg_text};
ghost use Rattle.kp_diagram_text.specs.Charts.{IsDrawable, figure_of, names_of, rows_of};
ghost use Rattle.kp_paths.specs.Text.{paths_text};
ghost use Rattle.kp_page.specs.Page.{before_diagram, before_paths, before_source, before_stages, before_states, diagram_part, front, head_part, last_part, page_start, paths_part, source_text, stage_lines, stages_part};

use crate::source::write_source;
use crate::stages::write_stage_lines;
use crate::texts::{
    BEFORE_DIAGRAM, BEFORE_PATHS, BEFORE_SOURCE, BEFORE_STAGES, BEFORE_STATES, END, FRONT,
};
use kp_base::{Sink, SinkFault, write_all};
use kp_diagram_svg::write_svg;
use kp_diagram_text::Chart;
use kp_paths::{Paths, write_paths};

/// Writes the page of a chart of at most 1,000 cycles up to its states. A fault comes only from the sink, which then has a prefix of the text.
#[tactic(auto, using(kp_base::proofs::Bytes::writes_next, kp_base::proofs::Bytes::part_more))]
pub(crate) fn write_start<K: Sink>(
    chart: &Chart<'_>,
    source: &[u8],
    paths: &Paths<'_>,
    sink: &mut K,
) -> Result<(), SinkFault>
    requires drawable { IsDrawable chart.now }
    requires few { length chart.now.rows.now ≤ 1000 }
    ensures text { Writes (K.held sink.old) (K.held sink.new) (page_start (figure_of chart.now) (rows_of chart.now) source.now (paths_text [] paths.now)) result }
    ensures cause { HasCause (K.faults sink.old) (K.faults sink.new) result }
{
    write_head(chart.name, sink)?;
    write_source_and_diagram(chart, source, paths, sink)
}

/// Writes the rest of a page, after the states.
#[tactic(auto, unfolding(crate::specs::Page::last_part))]
pub(crate) fn write_end<K: Sink>(sink: &mut K) -> Result<(), SinkFault>
    ensures text { Writes (K.held sink.old) (K.held sink.new) last_part result }
    ensures cause { HasCause (K.faults sink.old) (K.faults sink.new) result }
{
    write_all(sink, END.as_bytes())
}

#[tactic(auto, using(kp_base::proofs::Bytes::writes_next, kp_base::proofs::Bytes::part_more))]
fn write_head<K: Sink>(name: &[u8], sink: &mut K) -> Result<(), SinkFault>
    ensures text { Writes (K.held sink.old) (K.held sink.new) (head_part name.now) result }
    ensures cause { HasCause (K.faults sink.old) (K.faults sink.new) result }
{
    write_front(sink)?;
    write_name(name, sink)
}

#[tactic(auto, using(kp_base::proofs::Bytes::writes_next, kp_base::proofs::Bytes::part_more))]
fn write_name<K: Sink>(name: &[u8], sink: &mut K) -> Result<(), SinkFault>
    ensures text { Writes (K.held sink.old) (K.held sink.new) (name.now ++ before_source) result }
    ensures cause { HasCause (K.faults sink.old) (K.faults sink.new) result }
{
    write_all(sink, name)?;
    write_before_source(sink)
}

#[tactic(auto, using(kp_base::proofs::Bytes::writes_next, kp_base::proofs::Bytes::part_more))]
fn write_source_and_diagram<K: Sink>(
    chart: &Chart<'_>,
    source: &[u8],
    paths: &Paths<'_>,
    sink: &mut K,
) -> Result<(), SinkFault>
    requires drawable { IsDrawable chart.now }
    requires few { length chart.now.rows.now ≤ 1000 }
    ensures text { Writes (K.held sink.old) (K.held sink.new) (source_text source.now ++ diagram_part (figure_of chart.now) (rows_of chart.now) (paths_text [] paths.now)) result }
    ensures cause { HasCause (K.faults sink.old) (K.faults sink.new) result }
{
    write_source(source, sink)?;
    write_diagram(chart, paths, sink)
}

#[tactic(auto, using(kp_base::proofs::Bytes::writes_next, kp_base::proofs::Bytes::part_more), unfolding(kp_diagram_svg::specs::Picture::svg_text))]
fn write_diagram<K: Sink>(
    chart: &Chart<'_>,
    paths: &Paths<'_>,
    sink: &mut K,
) -> Result<(), SinkFault>
    requires drawable { IsDrawable chart.now }
    requires few { length chart.now.rows.now ≤ 1000 }
    ensures text { Writes (K.held sink.old) (K.held sink.new) (diagram_part (figure_of chart.now) (rows_of chart.now) (paths_text [] paths.now)) result }
    ensures cause { HasCause (K.faults sink.old) (K.faults sink.new) result }
{
    write_before_diagram(sink)?;
    write_picture_and_paths(chart, paths, sink)
}

#[tactic(auto, using(kp_base::proofs::Bytes::writes_next, kp_base::proofs::Bytes::part_more))]
fn write_picture_and_paths<K: Sink>(
    chart: &Chart<'_>,
    paths: &Paths<'_>,
    sink: &mut K,
) -> Result<(), SinkFault>
    requires drawable { IsDrawable chart.now }
    requires few { length chart.now.rows.now ≤ 1000 }
    ensures text { Writes (K.held sink.old) (K.held sink.new) (svg_text chart.now ++ paths_part (paths_text [] paths.now) (names_of chart.now) chart.now.stages) result }
    ensures cause { HasCause (K.faults sink.old) (K.faults sink.new) result }
{
    write_svg(chart, sink)?;
    write_table(chart, paths, sink)
}

#[tactic(auto, using(kp_base::proofs::Bytes::writes_next, kp_base::proofs::Bytes::part_more))]
fn write_table<K: Sink>(chart: &Chart<'_>, paths: &Paths<'_>, sink: &mut K) -> Result<(), SinkFault>
    requires { IsDrawable chart.now }
    ensures text { Writes (K.held sink.old) (K.held sink.new) (paths_part (paths_text [] paths.now) (names_of chart.now) chart.now.stages) result }
    ensures cause { HasCause (K.faults sink.old) (K.faults sink.new) result }
{
    write_before_paths(sink)?;
    write_paths_and_stages(chart, paths, sink)
}

#[tactic(auto, using(kp_base::proofs::Bytes::writes_next, kp_base::proofs::Bytes::part_more))]
fn write_paths_and_stages<K: Sink>(
    chart: &Chart<'_>,
    paths: &Paths<'_>,
    sink: &mut K,
) -> Result<(), SinkFault>
    requires { IsDrawable chart.now }
    ensures text { Writes (K.held sink.old) (K.held sink.new) (paths_text [] paths.now ++ stages_part (names_of chart.now) chart.now.stages) result }
    ensures cause { HasCause (K.faults sink.old) (K.faults sink.new) result }
{
    write_paths(paths, &[], sink)?;
    write_stages(chart, sink)
}

#[tactic(auto, using(kp_base::proofs::Bytes::writes_next, kp_base::proofs::Bytes::part_more))]
fn write_stages<K: Sink>(chart: &Chart<'_>, sink: &mut K) -> Result<(), SinkFault>
    requires { IsDrawable chart.now }
    ensures text { Writes (K.held sink.old) (K.held sink.new) (stages_part (names_of chart.now) chart.now.stages) result }
    ensures cause { HasCause (K.faults sink.old) (K.faults sink.new) result }
{
    write_before_stages(sink)?;
    write_names(chart, sink)
}

#[tactic(auto, using(kp_base::proofs::Bytes::writes_next, kp_base::proofs::Bytes::part_more))]
fn write_names<K: Sink>(chart: &Chart<'_>, sink: &mut K) -> Result<(), SinkFault>
    requires { IsDrawable chart.now }
    ensures text { Writes (K.held sink.old) (K.held sink.new) (stage_lines (names_of chart.now) 0 chart.now.stages ++ before_states) result }
    ensures cause { HasCause (K.faults sink.old) (K.faults sink.new) result }
{
    write_stage_lines(chart, sink)?;
    write_before_states(sink)
}

#[tactic(auto, unfolding(crate::specs::Page::front))]
fn write_front<K: Sink>(sink: &mut K) -> Result<(), SinkFault>
    ensures text { Writes (K.held sink.old) (K.held sink.new) front result }
    ensures cause { HasCause (K.faults sink.old) (K.faults sink.new) result }
{
    write_all(sink, FRONT.as_bytes())
}

#[tactic(auto, unfolding(crate::specs::Page::before_source))]
fn write_before_source<K: Sink>(sink: &mut K) -> Result<(), SinkFault>
    ensures text { Writes (K.held sink.old) (K.held sink.new) before_source result }
    ensures cause { HasCause (K.faults sink.old) (K.faults sink.new) result }
{
    write_all(sink, BEFORE_SOURCE.as_bytes())
}

#[tactic(auto, unfolding(crate::specs::Page::before_diagram))]
fn write_before_diagram<K: Sink>(sink: &mut K) -> Result<(), SinkFault>
    ensures text { Writes (K.held sink.old) (K.held sink.new) before_diagram result }
    ensures cause { HasCause (K.faults sink.old) (K.faults sink.new) result }
{
    write_all(sink, BEFORE_DIAGRAM.as_bytes())
}

#[tactic(auto, unfolding(crate::specs::Page::before_paths))]
fn write_before_paths<K: Sink>(sink: &mut K) -> Result<(), SinkFault>
    ensures text { Writes (K.held sink.old) (K.held sink.new) before_paths result }
    ensures cause { HasCause (K.faults sink.old) (K.faults sink.new) result }
{
    write_all(sink, BEFORE_PATHS.as_bytes())
}

#[tactic(auto, unfolding(crate::specs::Page::before_stages))]
fn write_before_stages<K: Sink>(sink: &mut K) -> Result<(), SinkFault>
    ensures text { Writes (K.held sink.old) (K.held sink.new) before_stages result }
    ensures cause { HasCause (K.faults sink.old) (K.faults sink.new) result }
{
    write_all(sink, BEFORE_STAGES.as_bytes())
}

#[tactic(auto, unfolding(crate::specs::Page::before_states))]
fn write_before_states<K: Sink>(sink: &mut K) -> Result<(), SinkFault>
    ensures text { Writes (K.held sink.old) (K.held sink.new) before_states result }
    ensures cause { HasCause (K.faults sink.old) (K.faults sink.new) result }
{
    write_all(sink, BEFORE_STATES.as_bytes())
}
