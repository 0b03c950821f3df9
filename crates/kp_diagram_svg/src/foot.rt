// The foot of a picture: the legend and the account.
ghost use Rattle.std.specs.Prelude.{◌≡◌, ◌≤◌, codes, cond, ltb};
ghost use Rattle.kp_base.specs.Writer.{Wrote};
ghost use Rattle.kp_diagram_text.specs.Losses.{account_shown};
ghost use Rattle.kp_diagram_svg.specs.Picture.{foot, rate_shown, table};

use crate::texts::{END, FOOT};
use kp_base::{Piece, Sink, Writer};
use kp_diagram_text::Account;

/// Writes the foot of a picture with cells of this half width, and this many cycles and rows.
pub(crate) fn write_foot<K: Sink>(
    half: u64,
    cycles: u64,
    rows: u64,
    account: Account,
    out: &mut Writer<'_, K>,
)
    requires half { half ≤ 46 }
    requires rows { rows ≤ 1000 }
    requires cycles { cycles ≤ 1000 }
    requires retired { account.retired ≤ 1000 }
    ensures { Wrote K.held K.faults out.old out.new (foot half cycles rows (account_shown account)) }
{
    write_table(half, 28 * rows + 105, cycles, account, out);
    write_rate_shown(cycles, account.retired, out);
    out.put(END)
}

// The legend and the account, up to the cycles per instruction.
fn write_table<K: Sink>(half: u64, y: u64, cycles: u64, account: Account, out: &mut Writer<'_, K>)
    requires { half ≤ 46 }
    ensures { Wrote K.held K.faults out.old out.new (table half y cycles (account_shown account)) }
{
    out.fill(
        FOOT,
        &[
            Piece::Number(half + 16),
            Piece::Number(y),
            Piece::Number(2 * half + 26),
            Piece::Number(y),
            Piece::Number(2 * half + 228),
            Piece::Number(y),
            Piece::Number(2 * half + 228 + 212),
            Piece::Number(y),
            Piece::Number(cycles),
            Piece::Number(account.retired),
            Piece::Number(account.filling),
            Piece::Number(account.hazards),
            Piece::Number(account.guesses),
            Piece::Number(account.outside),
        ],
    )
}

fn write_rate_shown<K: Sink>(cycles: u64, retired: u64, out: &mut Writer<'_, K>)
    requires cycles { cycles ≤ 1000 }
    requires retired { retired ≤ 1000 }
    ensures { Wrote K.held K.faults out.old out.new (rate_shown cycles retired) }
{
    if retired == 0 {
        return out.put(b"-");
    }
    let hundredths = (200 * cycles + retired) / (2 * retired);
    out.number(hundredths / 100);
    out.put(point(hundredths % 100));
    out.number(hundredths % 100)
}

// What is written before the hundredths, so that they have two digits.
fn point(rest: u64) -> &'static [u8]
    ensures { result.now ≡ cond (ltb rest 10) (codes ".0") (codes ".") }
{
    if rest < 10 { b".0" } else { b"." }
}
