// The widths of the names of a module, looked up in about constant time.
ghost use Rattle.std.specs.Prelude.{◌≡◌, ◌+◌, ◌≤◌, ◌^◌, ◌++◌, ◌∷◌, [], map, IfOk, IfSome, OnOk};
ghost use Rattle.kp_vlog.specs.Scope.{address_width as address_width_of, or_zero, width_in, address_in, port_size, item_sizes, sizes_of};
ghost use Rattle.kp_vread_rules.specs.Tables.{AlikeSizes};
ghost use Rattle.kp_vread_rules.specs.inner.Sizing.{with_item};

use kp_base::NoMemory;
use kp_net::{Key, Label};
use kp_vlog::{Item, VModule, VPort};
use std::alloc::Global;
use std::collections::HashMap;
use std::marker::Model;

/// The number of the highest bit, and for a file that of its last word; otherwise 0.
#[derive(Clone, Copy)]
pub struct Size {
    pub high: u64,
    pub last: u64,
}

/// The sizes of the names of a module, looked up in about constant time.
///
/// Contracts see the names with their sizes.
pub struct Sizes<'m> {
    table: HashMap<Key<'m>, Size>,
}

impl Drop for Sizes<'_> {
    fn drop(self) {
        let Sizes { table } = self;
        drop(table);
    }
}

impl<'m> Model for Sizes<'m> {
    ghost use Rattle.std.specs.Prelude.{map};
    ghost use Rattle.kp_vlog.specs.Scope.{Sizes as Listed};
    ghost use Rattle.kp_vread_rules.specs.Tables.{sized_of};

    ghost Value = { Listed };

    ghost view = { λ s. map sized_of s.table.entries };
}

impl<'m> Sizes<'m> {
    /// The sizes of a module. If a name has several ranges, its first one counts. The only error is out of memory.
    pub fn new(alloc: Global, whole: &'m VModule) -> Result<Sizes<'m>, NoMemory>
        ensures { IfOk result (λ s. AlikeSizes s (sizes_of whole.now)) }
    {
        let mut sizes = Sizes::empty(alloc);
        sizes.items(whole.items.as_slice())?;
        sizes.port(&whole.back)?;
        sizes.port(&whole.ue)?;
        sizes.port(&whole.full)?;
        sizes.ports(whole.samples.as_slice())?;
        sizes.port(&whole.ext)?;
        Ok(sizes)
    }

    fn empty(alloc: Global) -> Sizes<'m>
        ensures { result ≡ [] }
    {
        Sizes {
            table: HashMap::new(alloc),
        }
    }

    fn ports(&mut self, ports: &'m [VPort]) -> Result<(), NoMemory>
        ensures { OnOk result (AlikeSizes self.new (map port_size ports.now ++ self.old)) }
    {
        let mut left = ports.len();
        'ports: while left > 0 {
            left -= 1;
            self.port(&ports[left])?;
        }
        Ok(())
    }

    fn port(&mut self, port: &'m VPort) -> Result<(), NoMemory>
        ensures { OnOk result (AlikeSizes self.new (port_size port.now ∷ self.old)) }
    {
        self.put(&port.port.name, port.range.high.value, 0)
    }

    fn items(&mut self, items: &'m [Item]) -> Result<(), NoMemory>
        ensures { OnOk result (AlikeSizes self.new (item_sizes items.now ++ self.old)) }
    {
        let mut left = items.len();
        'items: while left > 0 {
            left -= 1;
            self.item(&items[left])?;
        }
        Ok(())
    }

    #[tactic(auto, using(crate::proofs::Sizing::sizes_alike))]
    fn item(&mut self, item: &'m Item) -> Result<(), NoMemory>
        ensures { OnOk result (AlikeSizes self.new (with_item item.now self.old)) }
    {
        match item {
            Item::Reg(range, name) | Item::Wire(range, name) => {
                self.put(&name.name, range.high.value, 0)
            }
            Item::File(range, name, words) => {
                self.put(&name.name, range.high.value, words.low.value)
            }
            Item::Integer(_) | Item::Assign(_, _) => Ok(()),
        }
    }

    fn put(&mut self, name: &'m Label, high: u64, last: u64) -> Result<(), NoMemory>
        ensures { OnOk result (AlikeSizes self.new (record { name = name.now; width = high + 1; address = or_zero (address_width_of last) } ∷ self.old)) }
    {
        self.table.insert(Key::new(name), Size { high, last })?;
        Ok(())
    }

    /// The number of bits of a name; 0 if it has no range.
    pub fn width(&self, name: &'m Label) -> u128
        ensures width { result ≡ width_in self.now name.now }
        ensures at_most { result ≤ 2 ^ 64 }
    {
        match self.table.get(&Key::new(name)).copied() {
            Some(size) => u128::from(size.high) + 1,
            None => 0,
        }
    }

    /// The number of bits of an address of the file; 0 if the name isn't a file.
    pub fn address(&self, name: &'m Label) -> u8
        ensures address { result ≡ address_in self.now name.now }
        ensures at_most { result ≤ 16 }
    {
        match self.table.get(&Key::new(name)).copied() {
            Some(size) => address_of(size.last),
            None => 0,
        }
    }

    /// The number of words of the file; 1 if the name isn't a file.
    pub fn words(&self, name: &'m Label) -> u64
        ensures { result ≡ 2 ^ address_in self.now name.now }
    {
        1 << self.address(name)
    }
}

// The width of an address if the last word has this number; 0 if no width fits.
fn address_of(last: u64) -> u8
    ensures address { result ≡ or_zero (address_width_of last) }
    ensures at_most { result ≤ 16 }
{
    match address_width(last) {
        Some(width) => width,
        None => 0,
    }
}

/// The number of bits of an address if the last word has this number, if some width fits.
pub(crate) fn address_width(last: u64) -> Option<u8>
    ensures width { result ≡ address_width_of last }
    ensures at_most { IfSome result (λ a. a ≤ 16) }
{
    match last {
        1 => Some(1),
        3 => Some(2),
        7 => Some(3),
        15 => Some(4),
        31 => Some(5),
        63 => Some(6),
        127 => Some(7),
        255 => Some(8),
        511 => Some(9),
        1023 => Some(10),
        2047 => Some(11),
        4095 => Some(12),
        8191 => Some(13),
        16383 => Some(14),
        32767 => Some(15),
        65535 => Some(16),
        _ => None,
    }
}
