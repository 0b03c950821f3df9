//! Bit masks, in which bit k belongs to stage k.
ghost use Rattle.std.specs.Prelude.{◌≡◌, ℕ, ◌+◌, ◌*◌, ◌^◌, ◌<◌, false, get_or};
ghost use Rattle.kp_pipeline.specs.Rows.{one_if};
ghost use Rattle.kp_sched.specs.Rows.{bit_of};

/// The mask with these bits.
pub(crate) fn mask_of(bits: &[bool; 12]) -> u16
    ensures { (k : ℕ) → bit_of result k ≡ get_or bits.now k false }
{
    let mut mask: u16 = 0;
    let mut k = 12;
    while k > 0 {
        k -= 1;
        mask = pushed(mask, bits[k]);
    }
    mask
}

// A mask shifted up by one, with a new lowest bit.
fn pushed(mask: u16, bit: bool) -> u16
    requires { mask < 2 ^ 15 }
    ensures { result ≡ 2 * mask + one_if bit }
{
    if bit { 2 * mask + 1 } else { 2 * mask }
}

/// Bit k of a mask.
pub(crate) fn is_set(word: u16, k: usize) -> bool
    requires { k < 16 }
    ensures { result ≡ bit_of word k }
{
    (word >> k) % 2 == 1
}
