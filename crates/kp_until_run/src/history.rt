// The words of a target, and what its last updates changed.
ghost use Rattle.std.specs.Prelude.{◌≡◌, ◌+◌, ◌<◌, ◌≤◌, ◌^◌, ◌%◌, ℕ, true, false, length, get_or};
ghost use Rattle.kp_bits.specs.Word.{Word};
ghost use Rattle.kp_until_run.specs.inner.Histories.{AreWithin, IsUpdate, Remembers};

use kp_bits::Bits;

/// How many updates are remembered: those of the instructions that haven't retired yet, which are at most 12, and those of the last four that have.
const KEPT: usize = 16;

/// The words of a target, the number of its updates, and what the last of these changed: update c changed the word at an address, which had a value before, both at
/// index c % 16.
#[derive(Drop)]
pub(crate) struct History {
    pub words: Vec<Bits>,
    pub count: u64,
    pub addresses: [u32; KEPT],
    pub olds: [Bits; KEPT],
}

impl History {
    /// The words of a target before any update.
    pub fn new(words: Vec<Bits>) -> History
        requires some { 0 < length words.items }
        ensures words { result.words.items ≡ words.items }
        ensures count { result.count ≡ 0 }
        ensures remembers { (f : ℕ → ℕ → Word) (size : ℕ) → length words.items ≡ size → ((a : ℕ) (d : Word) → a < size → get_or words.items a d ≡ f 0 a) → Remembers f size result }
    {
        let first = words[0];
        History {
            words,
            count: 0,
            addresses: [0; KEPT],
            olds: [first; KEPT],
        }
    }

    /// One update more, after which the word at an address has this value.
    pub fn update(&mut self, address: u32, value: Bits)
        requires there { address < length self.old.words.items }
        requires few { self.old.count < 2 ^ 32 }
        ensures count { self.new.count ≡ self.old.count + 1 }
        ensures remembers { (f : ℕ → ℕ → Word) (size : ℕ) → Remembers f size self.old → IsUpdate f size self.old.count address value → Remembers f size self.new }
    {
        let at = address as usize;
        let last = slot(self.count);
        self.addresses[last] = address;
        self.olds[last] = self.words[at];
        self.words[at] = value;
        self.count += 1;
    }

    /// The word at an address after c updates, or after all if there are fewer.
    pub fn word_after(&self, c: u64, address: u32) -> Bits
        requires { address < length self.now.words.items }
        ensures before { (f : ℕ → ℕ → Word) (size : ℕ) → Remembers f size self.now → self.now.count ≤ c + 16 → c ≤ self.now.count → result ≡ f c address }
        ensures all { (f : ℕ → ℕ → Word) (size : ℕ) → Remembers f size self.now → self.now.count ≤ c → result ≡ f self.now.count address }
    {
        for i in c..self.count {
            if self.addresses[slot(i)] == address {
                return self.olds[slot(i)];
            }
        }
        self.words[address as usize]
    }

    /// Whether the words after c updates are those after d, or after all if there are fewer.
    pub fn is_same(&self, c: u64, d: u64) -> bool
        requires within { AreWithin self.now }
        ensures yes { result ≡ true → (f : ℕ → ℕ → Word) (size : ℕ) → Remembers f size self.now → self.now.count ≤ c + 16 → c ≤ d → d ≤ self.now.count → (a : ℕ) → a < size → (f c a).value ≡ (f d a).value }
        ensures no { result ≡ false → (f : ℕ → ℕ → Word) (size : ℕ) → Remembers f size self.now → self.now.count ≤ c + 16 → c ≤ d → d ≤ self.now.count → ((a : ℕ) → a < size → (f c a).value ≡ (f d a).value) → ⊥ }
        ensures all { self.now.count ≤ c → result ≡ true }
    {
        for i in c..d.min(self.count) {
            let address = self.addresses[slot(i)];
            if self.word_after(c, address).value() != self.word_after(d, address).value() {
                return false;
            }
        }
        true
    }
}

// The index of what an update changed.
fn slot(c: u64) -> usize
    ensures value { result ≡ c % 16 }
    ensures few { result < 16 }
{
    (c % 16) as usize
}
