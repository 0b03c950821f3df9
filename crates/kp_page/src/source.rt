// The source of a job as HTML.
ghost use Rattle.kp_base.specs.Bytes.{Writes};
ghost use Rattle.kp_base.specs.Causes.{HasCause};
ghost use Rattle.kp_page.specs.Page.{escaped, source_text};

use kp_base::{Sink, SinkFault, write_all};

/// Writes a source with the signs of HTML escaped, and each line as an item of a list.
pub(crate) fn write_source<K: Sink>(source: &[u8], sink: &mut K) -> Result<(), SinkFault>
    ensures text { Writes (K.held sink.old) (K.held sink.new) (source_text source.now) result }
    ensures cause { HasCause (K.faults sink.old) (K.faults sink.new) result }
{
    for byte in source {
        write_escaped(*byte, sink)?;
    }
    Ok(())
}

#[tactic(auto, unfolding(crate::specs::Page::escaped))]
fn write_escaped<K: Sink>(byte: u8, sink: &mut K) -> Result<(), SinkFault>
    ensures text { Writes (K.held sink.old) (K.held sink.new) (escaped byte) result }
    ensures cause { HasCause (K.faults sink.old) (K.faults sink.new) result }
{
    match byte {
        b'&' => write_all(sink, b"&amp;"),
        b'<' => write_all(sink, b"&lt;"),
        b'>' => write_all(sink, b"&gt;"),
        b'\n' => write_all(sink, b"\n<li>"),
        _ => write_all(sink, &[byte]),
    }
}
