// The lines as text.
ghost use Rattle.std.specs.Prelude.{◌++◌, map, string_bytes};
ghost use Rattle.kp_base.specs.Writer.{Wrote};
ghost use Rattle.kp_bits.specs.Spelling.{spelling};
ghost use Rattle.kp_stalls_text.specs.Labels.{label_at};
ghost use Rattle.kp_stalls_text.specs.Text.{cause_text, guess_part, guess_text, guessed_text, had_text, instruction_text, line_text, lines_text, place_text, producer_text, squashed_text, stage_text, staged_text, value_text, writer_text};

use crate::labels::{is_file, line_of, name_of};
use crate::report::Report;
use kp_base::{Piece, Sink, Writer};
use kp_bits::Bits;
use kp_stalls::{Cause, Guess, Had, Line, Producer, Wait, Wrong};

/// Writes lines of a report.
#[tactic(auto, using(kp_base::proofs::Writing::up_none))]
pub(crate) fn write_lines<K: Sink>(report: &Report<'_>, lines: &[Line], out: &mut Writer<'_, K>)
    ensures { Wrote K.held K.faults out.old out.new (lines_text report.now.names report.now.labels lines.now) }
{
    for line in lines {
        write_line(report, *line, out);
    }
}

fn write_line<K: Sink>(report: &Report<'_>, line: Line, out: &mut Writer<'_, K>)
    ensures { Wrote K.held K.faults out.old out.new (line_text report.now.names report.now.labels line) }
{
    out.fill(
        b"cycle @: instruction @ ",
        &[Piece::Number(line.cycle as u64), Piece::Number(line.number)],
    );
    write_cause(report, line, out)
}

fn write_cause<K: Sink>(report: &Report<'_>, line: Line, out: &mut Writer<'_, K>)
    ensures { Wrote K.held K.faults out.old out.new (cause_text report.now.names report.now.labels line.number line.stage line.cause) }
{
    let stage = line.stage as u64;
    let cause = line.cause;
    match cause {
        Cause::Value(wait) => write_value(report, stage, wait, out),
        Cause::Unsure => write_staged(report, b"waits in ", stage, b" for a value\n", out),
        Cause::Ahead => write_staged(report, b"waits in ", stage, b" for the stage ahead\n", out),
        Cause::Held => write_staged(report, b"is held in ", stage, b" from outside\n", out),
        Cause::Later => write_staged(
            report,
            b"waits in ",
            stage,
            b" and is squashed later\n",
            out,
        ),
        Cause::Squashed(wrong) => write_wrong(report, line.number, wrong, out),
    }
}

// A stage, between two texts.
fn write_staged<K: Sink>(
    report: &Report<'_>,
    before: &[u8],
    k: u64,
    after: &[u8],
    out: &mut Writer<'_, K>,
)
    ensures { Wrote K.held K.faults out.old out.new (staged_text report.now.names before.now k after.now) }
{
    out.put(before);
    write_stage(report.names(), k, out);
    out.put(after)
}

fn write_stage<K: Sink>(names: &[String], k: u64, out: &mut Writer<'_, K>)
    ensures { Wrote K.held K.faults out.old out.new (stage_text (map string_bytes names.now) k) }
{
    if k < names.len() as u64 {
        out.put(names[k as usize].as_bytes())
    } else {
        out.pieces(&[Piece::Text(b"stage "), Piece::Number(k)])
    }
}

// An instruction and its stage.
fn write_instruction<K: Sink>(report: &Report<'_>, number: u64, stage: u64, out: &mut Writer<'_, K>)
    ensures { Wrote K.held K.faults out.old out.new (instruction_text report.now.names number stage) }
{
    out.fill(b"instruction @", &[Piece::Number(number)]);
    write_staged(report, b", in ", stage, b", ", out)
}

// A wait for a value.
fn write_value<K: Sink>(report: &Report<'_>, k: u64, wait: Wait, out: &mut Writer<'_, K>)
    ensures { Wrote K.held K.faults out.old out.new (value_text report.now.names report.now.labels k wait) }
{
    write_staged(report, b"waits in ", k, b" for ", out);
    write_place(report, wait, out);
    write_writer(report, wait, out)
}

// What is read, and where.
fn write_place<K: Sink>(report: &Report<'_>, wait: Wait, out: &mut Writer<'_, K>)
    ensures { Wrote K.held K.faults out.old out.new (place_text (label_at report.now.labels wait.read) wait.address) }
{
    let labels = report.labels();
    let name = Piece::Text(name_of(labels, wait.read));
    let line = Piece::Number(u64::from(line_of(labels, wait.read)));
    if is_file(labels, wait.read) {
        let address = Piece::Number(u64::from(wait.address));
        out.fill(b"@[@] (line @): ", &[name, address, line])
    } else {
        out.fill(b"@ (line @): ", &[name, line])
    }
}

fn write_writer<K: Sink>(report: &Report<'_>, wait: Wait, out: &mut Writer<'_, K>)
    ensures { Wrote K.held K.faults out.old out.new (writer_text report.now.names wait) }
{
    write_instruction(report, wait.writer, wait.stage as u64, out);
    write_had(report, wait.had, out)
}

fn write_had<K: Sink>(report: &Report<'_>, had: Had, out: &mut Writer<'_, K>)
    ensures { Wrote K.held K.faults out.old out.new (had_text report.now.names had) }
{
    match had {
        Had::Known(stage) => {
            let before = b"may write it, which is known in ";
            write_staged(report, before, u64::from(stage), b"\n", out)
        }
        Had::Set(stage) => {
            let before = b"writes it and has the value in ";
            write_staged(report, before, u64::from(stage), b"\n", out)
        }
        Had::Moved => out.put(b"writes it and has the value as soon as it moves on\n"),
    }
}

// A rollback.
fn write_wrong<K: Sink>(report: &Report<'_>, number: u64, wrong: Wrong, out: &mut Writer<'_, K>)
    ensures { Wrote K.held K.faults out.old out.new (guess_part report.now.names report.now.labels wrong.guess ++ squashed_text number wrong.last) }
{
    write_guess_part(report, wrong.guess, out);
    out.fill(
        b"; instructions @ to @ are squashed\n",
        &[Piece::Number(number), Piece::Number(wrong.last)],
    )
}

fn write_guess_part<K: Sink>(report: &Report<'_>, guess: Option<Guess>, out: &mut Writer<'_, K>)
    ensures { Wrote K.held K.faults out.old out.new (guess_part report.now.names report.now.labels guess) }
{
    match guess {
        Some(guess) => write_guess(report, guess, out),
        None => out.put(b"made a wrong guess"),
    }
}

fn write_guess<K: Sink>(report: &Report<'_>, guess: Guess, out: &mut Writer<'_, K>)
    ensures { Wrote K.held K.faults out.old out.new (guess_text report.now.names report.now.labels guess) }
{
    write_guessed(report, guess.read, guess.guessed, out);
    write_producer(report, guess.producer, out);
    write_spelled(guess.value, out)
}

// The read whose guess is wrong, with the value that was guessed, if it is known.
fn write_guessed<K: Sink>(
    report: &Report<'_>,
    read: usize,
    guessed: Option<Bits>,
    out: &mut Writer<'_, K>,
)
    ensures { Wrote K.held K.faults out.old out.new (guessed_text (label_at report.now.labels read) guessed) }
{
    let labels = report.labels();
    let name = name_of(labels, read);
    let line = u64::from(line_of(labels, read));
    match guessed {
        Some(value) => {
            out.fill(b"guessed @ = ", &[Piece::Text(name)]);
            write_spelled(value, out);
            out.pieces(&[
                Piece::Text(b" (line "),
                Piece::Number(line),
                Piece::Text(b"): "),
            ])
        }
        None => out.fill(
            b"guessed @ wrong (line @): ",
            &[Piece::Text(name), Piece::Number(line)],
        ),
    }
}

fn write_producer<K: Sink>(report: &Report<'_>, producer: Option<Producer>, out: &mut Writer<'_, K>)
    ensures { Wrote K.held K.faults out.old out.new (producer_text report.now.names producer) }
{
    match producer {
        Some(producer) => {
            write_instruction(report, producer.number, producer.stage as u64, out);
            out.put(b"makes it ")
        }
        None => out.put(b"it is "),
    }
}

fn write_spelled<K: Sink>(value: Bits, out: &mut Writer<'_, K>)
    ensures { Wrote K.held K.faults out.old out.new (spelling value) }
{
    let mut spelled = [0; 20];
    let length = value.spell(&mut spelled);
    out.put(&spelled[..length])
}
