// Texts that are made of pieces.
ghost use Rattle.std.specs.Prelude.{◌≡◌, ◌++◌, flat_map, OnOk};

use kp_base::NoMemory;

/// Appends pieces, in order. The only error is out of memory.
pub fn add(out: &mut Vec<u8>, pieces: &[&[u8]]) -> Result<(), NoMemory>
    ensures { OnOk result (out.new.items ≡ out.old.items ++ flat_map (λ piece. piece.now) pieces.now) }
{
    for piece in pieces {
        out.extend_from_slice(piece)?;
    }
    Ok(())
}
