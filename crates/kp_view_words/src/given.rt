// The names and the labels of what is asked for, and what is asked for with others.
ghost use Rattle.std.specs.Prelude.{◌≡◌, ◌≤◌, length, map, option_map, string_bytes};
ghost use Rattle.kp_view_words.specs.{Asked.beside_seen, Asked.cycles_seen, Asked.order_seen, Asked.run_seen};
ghost use Rattle.kp_view_words.specs.declared.task.Order.TheVariants as orders;
ghost use Rattle.kp_view_words.specs.Words.{beside, given_in, label_added, label_for, labelled, listing_added, listing_for, named, names_for, names_or, run_labelled, run_named};

use crate::task::{Cycles, Later, Order, Run, WithLabels};

impl<'w> Order<'w> {
    /// The names of the stages that are given; or none.
    pub fn names(&self) -> &'w [String]
        ensures { map string_bytes result.now ≡ names_for (order_seen self.now) }
    {
        match self {
            Order::Diagram(run) | Order::Svg(run) | Order::Page(run) => run.names,
            Order::Window(later) => later.run.names,
            Order::Labelled(shown) => shown.later.run.names,
            Order::Stalls(cycles) => cycles.names,
            Order::Paths(names) | Order::PathsSvg(names) => *names,
            Order::Depth(_) => &[],
        }
    }

    /// The same with these names of the stages, where none are given.
    pub fn named(self, listed: &'w [String]) -> Order<'w>
        ensures { order_seen result ≡ named (map string_bytes listed.now) (order_seen self.entry) }
    {
        match self {
            Order::Diagram(run) => Order::Diagram(run.named(listed)),
            Order::Window(later) => Order::Window(later.named(listed)),
            Order::Labelled(shown) => Order::Labelled(shown.named(listed)),
            Order::Svg(run) => Order::Svg(run.named(listed)),
            Order::Page(run) => Order::Page(run.named(listed)),
            Order::Paths(names) => Order::Paths(names_or(listed, names)),
            Order::PathsSvg(names) => Order::PathsSvg(names_or(listed, names)),
            Order::Stalls(cycles) => Order::Stalls(cycles.named(listed)),
            Order::Depth(_) => self,
        }
    }

    /// The text that names the labels, which is empty without any.
    pub fn label(&self) -> &'w [u8]
        ensures label { result.now ≡ label_for (order_seen self.now) }
        ensures short { length result.now ≤ 16777216 }
    {
        match self {
            Order::Labelled(shown) => shown.label,
            Order::Diagram(_)
            | Order::Window(_)
            | Order::Svg(_)
            | Order::Page(_)
            | Order::Paths(_)
            | Order::PathsSvg(_)
            | Order::Stalls(_)
            | Order::Depth(_) => &[],
        }
    }

    /// The file of the listing.
    pub(crate) fn listing(&self) -> Option<&'w String>
        ensures { option_map (λ word. string_bytes word.now) result ≡ listing_for (order_seen self.now) }
    {
        match self {
            Order::Labelled(shown) => shown.file,
            Order::Diagram(_)
            | Order::Window(_)
            | Order::Svg(_)
            | Order::Page(_)
            | Order::Paths(_)
            | Order::PathsSvg(_)
            | Order::Stalls(_)
            | Order::Depth(_) => None,
        }
    }

    // The same with this listing, which is still to be read.
    pub(crate) fn listed_by(self, file: Option<&'w String>) -> Order<'w>
        ensures { order_seen result ≡ listing_added (option_map (λ word. string_bytes word.now) file.entry) (order_seen self.entry) }
    {
        match self {
            Order::Labelled(shown) => Order::Labelled(shown.listed_by(file)),
            Order::Diagram(_)
            | Order::Window(_)
            | Order::Svg(_)
            | Order::Page(_)
            | Order::Paths(_)
            | Order::PathsSvg(_)
            | Order::Stalls(_)
            | Order::Depth(_) => self,
        }
    }

    // The same with what its listing has.
    pub(crate) fn listed(self, listing: &'w [u8]) -> Order<'w>
        requires { length listing.now ≤ 16777216 }
        ensures { order_seen result ≡ given_in listing.now (order_seen self.entry) }
    {
        match self {
            Order::Labelled(shown) => Order::Labelled(shown.listed(listing)),
            Order::Diagram(_)
            | Order::Window(_)
            | Order::Svg(_)
            | Order::Page(_)
            | Order::Paths(_)
            | Order::PathsSvg(_)
            | Order::Stalls(_)
            | Order::Depth(_) => self,
        }
    }

    /// The same with these labels, where it is a diagram of some cycles without any.
    pub fn labelled(self, label: &'w [u8]) -> Order<'w>
        requires { length label.now ≤ 16777216 }
        ensures { order_seen result ≡ label_added label.now (order_seen self.entry) }
    {
        if label.is_empty() {
            return self;
        }
        match self {
            Order::Diagram(run) => run.labelled(label),
            Order::Window(later) => later.labelled(label),
            Order::Labelled(_)
            | Order::Svg(_)
            | Order::Page(_)
            | Order::Paths(_)
            | Order::PathsSvg(_)
            | Order::Stalls(_)
            | Order::Depth(_) => self,
        }
    }
}

impl<'w> WithLabels<'w> {
    fn named(self, listed: &'w [String]) -> WithLabels<'w>
        ensures from { result.later.from ≡ self.entry.later.from }
        ensures run { run_seen result.later.run ≡ run_named (map string_bytes listed.now) (run_seen self.entry.later.run) }
        ensures beside { beside_seen result ≡ beside_seen self.entry }
    {
        WithLabels {
            later: self.later.named(listed),
            label: self.label,
            file: self.file,
            listing: self.listing,
        }
    }

    // The same with what its listing has.
    fn listed(self, listing: &'w [u8]) -> WithLabels<'w>
        requires { length listing.now ≤ 16777216 }
        ensures { order_seen (orders.Labelled result) ≡ given_in listing.now (order_seen (orders.Labelled self.entry)) }
    {
        WithLabels {
            later: self.later,
            label: self.label,
            file: self.file,
            listing,
        }
    }

    // The same with this listing, which is still to be read.
    fn listed_by(self, file: Option<&'w String>) -> WithLabels<'w>
        ensures { order_seen (orders.Labelled result) ≡ listing_added (option_map (λ word. string_bytes word.now) file.entry) (order_seen (orders.Labelled self.entry)) }
    {
        WithLabels {
            later: self.later,
            label: self.label,
            file,
            listing: self.listing,
        }
    }
}

impl<'w> Later<'w> {
    // The diagram of this window with labels.
    fn labelled(self, label: &'w [u8]) -> Order<'w>
        requires { length label.now ≤ 16777216 }
        ensures { order_seen result ≡ labelled self.entry.from (run_seen self.entry.run) (beside label.now) }
    {
        Order::Labelled(WithLabels {
            later: self,
            label,
            file: None,
            listing: &[],
        })
    }

    fn named(self, listed: &'w [String]) -> Later<'w>
        ensures from { result.from ≡ self.entry.from }
        ensures run { run_seen result.run ≡ run_named (map string_bytes listed.now) (run_seen self.entry.run) }
    {
        Later {
            from: self.from,
            run: self.run.named(listed),
        }
    }
}

impl<'w> Cycles<'w> {
    fn named(self, listed: &'w [String]) -> Cycles<'w>
        ensures { cycles_seen result ≡ run_named (map string_bytes listed.now) (cycles_seen self.entry) }
    {
        Cycles {
            count: self.count,
            names: names_or(listed, self.names),
        }
    }
}

// The names that are given, or else those that are listed.
fn names_or<'w>(listed: &'w [String], names: &'w [String]) -> &'w [String]
    ensures { map string_bytes result.now ≡ names_or (map string_bytes listed.now) (map string_bytes names.now) }
{
    if names.is_empty() { listed } else { names }
}

impl<'w> Run<'w> {
    fn named(self, listed: &'w [String]) -> Run<'w>
        ensures named { run_seen result ≡ run_named (map string_bytes listed.now) (run_seen self.entry) }
        ensures count { result.count ≡ self.entry.count }
    {
        Run {
            count: self.count,
            names: names_or(listed, self.names),
        }
    }

    // The diagram of this run with labels, if it has some cycles.
    fn labelled(self, label: &'w [u8]) -> Order<'w>
        requires { length label.now ≤ 16777216 }
        ensures { order_seen result ≡ run_labelled label.now (run_seen self.entry) }
    {
        if self.count == 0 {
            Order::Diagram(self)
        } else {
            Later { from: 0, run: self }.labelled(label)
        }
    }
}
