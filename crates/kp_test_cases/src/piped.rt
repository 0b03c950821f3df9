//! A text, followed by what `kp pipe` writes for it.
use crate::head::words_in;
use crate::programs::run;
use crate::streams::Streams;
use std::alloc::Global;

/// The status of `kp pipe` on a text, and this text followed by what it writes, or `None` if there is too little memory.
pub fn piped(alloc: Global, text: &[u8]) -> Option<(u8, Vec<u8>)> {
    let mut words = Vec::new(alloc);
    let mut both = Vec::new(alloc);
    if words_in(alloc, b"kp pipe", &mut words).is_err() || both.extend_from_slice(text).is_err() {
        return None;
    }
    let mut streams = Streams::of(alloc, b"", text)?;
    let status = run(alloc, words.as_slice(), &mut streams);
    if both.extend_from_slice(streams.out.bytes()).is_err() {
        return None;
    }
    Some((status, both))
}
