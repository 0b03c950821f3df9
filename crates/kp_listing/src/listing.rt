// The lines of a listing that have an address.
ghost use Rattle.std.specs.Prelude.{◌≡◌, ◌≤◌, ◌<◌, ◌^◌, [], ◌++◌, All, IfOk, OnOk, length, map, option_map};
ghost use Rattle.kp_base.specs.Lines.{IsWithin, piece_of};
ghost use Rattle.kp_listing.specs.Listings.{entries_from, entries_of, entry_in, text_at, widest, with_entry};
ghost use Rattle.kp_listing.specs.Seen.{entry_seen, listing_seen};

use crate::line::numbered_in;
use crate::text::text_shown;
use kp_base::{NoMemory, Run, lines_in};
use std::alloc::Global;

/// An address, and the text that is shown with it.
#[derive(Drop)]
pub struct Entry {
    pub address: u64,
    pub text: Vec<u8>,
}

/// A listing: its lines that have an address, in order.
#[derive(Drop)]
pub struct Listing {
    pub entries: Vec<Entry>,
}

impl Listing {
    /// The listing that a text is.
    pub fn of(alloc: Global, text: &[u8]) -> Result<Self, NoMemory>
        requires { length text.now < 2 ^ 32 }
        ensures { IfOk result (λ listing. listing_seen listing ≡ entries_of text.now) }
    {
        let run = Run {
            at: 0,
            end: text.len() as u32,
        };
        let lines = lines_in(alloc, text, run)?;
        let entries = entries_from(alloc, text, lines.as_slice())?;
        Ok(Listing { entries })
    }

    /// The text of an address: that of its first line. It is empty where there is none.
    pub fn text_at(&self, address: u64) -> &[u8]
        ensures { result.now ≡ text_at address (listing_seen self.now) }
    {
        let entries = self.entries.as_slice();
        for entry in entries {
            if entry.address == address {
                return entry.text.as_slice();
            }
        }
        &[]
    }

    /// The greatest length of a text.
    pub fn width(&self) -> usize
        ensures { result ≡ widest (listing_seen self.now) }
    {
        let entries = self.entries.as_slice();
        let mut width = 0;
        for entry in entries {
            width = width.max(entry.text.len());
        }
        width
    }
}

fn entries_from(alloc: Global, text: &[u8], lines: &[Run]) -> Result<Vec<Entry>, NoMemory>
    requires within { All (IsWithin text.now) lines.now }
    requires few { length text.now < 2 ^ 32 }
    ensures { IfOk result (λ entries. map entry_seen entries.items ≡ entries_from (map (piece_of text.now) lines.now)) }
{
    let mut entries = Vec::new(alloc);
    for line in lines {
        add_line(alloc, text, *line, &mut entries)?;
    }
    Ok(entries)
}

// Appends the entry of a line, if it has one.
fn add_line(alloc: Global, text: &[u8], line: Run, entries: &mut Vec<Entry>) -> Result<(), NoMemory>
    requires line { IsWithin text.now line }
    requires few { length text.now < 2 ^ 32 }
    ensures { OnOk result (map entry_seen entries.new.items ≡ map entry_seen entries.old.items ++ with_entry (entry_in (piece_of text.now line).bytes) []) }
{
    match entry_in(alloc, &text[line.at as usize..line.end as usize])? {
        Some(entry) => {
            entries.push(entry)?;
            Ok(())
        }
        None => Ok(()),
    }
}

fn entry_in(alloc: Global, line: &[u8]) -> Result<Option<Entry>, NoMemory>
    requires { length line.now < 2 ^ 32 }
    ensures { IfOk result (λ entry. option_map entry_seen entry ≡ entry_in line.now) }
{
    match numbered_in(line) {
        Some(found) => {
            let text = text_shown(alloc, found.text)?;
            Ok(Some(Entry {
                address: found.address,
                text,
            }))
        }
        None => Ok(None),
    }
}
