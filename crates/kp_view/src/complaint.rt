// Complaints, which go to standard error.
ghost use Rattle.std.specs.Prelude.{◌≡◌, ◌++◌, string_bytes, option_map, MatchResult};
ghost use Rattle.std.specs.Io.KnownBytes.{Appends};
ghost use Rattle.kp_base.specs.Bytes.{AppendsPart, Writes};
ghost use Rattle.kp_base.specs.Causes.{HasCause, Rose};
ghost use Rattle.kp_view.specs.Complaints.{complaint_status, complaint_text, said_of};
ghost use Rattle.kp_view.specs.Texts.{family_letter, file_text, label_wrong, names_text, refusal_said, rule_said};
ghost use Rattle.kp_view.specs.declared.failure.Stop.TheVariants as stop;

use crate::failure::{Complaint, Stop};
use crate::sentences::sentence_of;
use itoa::Buffer;
use kp_base::{Family, Refusal, Sink, SinkFault, write_all, write_pieces};
use kp_view_words::usage_of;

/// Writes a complaint about the job of a file, or of standard input, and returns its status. The only error is a fault of the sink, which then has a
/// prefix of the text.
pub fn complain<K: Sink>(
    complaint: Complaint,
    file: Option<&String>,
    err: &mut K,
) -> Result<u8, Stop>
    ensures { MatchResult result
        (λ status. (status ≡ complaint_status complaint) × Appends (K.held err.old) (K.held err.new) (complaint_text (option_map (λ name. string_bytes name.now) file.entry) complaint))
        (λ s. (s ≡ stop.WriteFault) × Rose (K.faults err.old) (K.faults err.new)
        × AppendsPart (K.held err.old) (K.held err.new) (complaint_text (option_map (λ name. string_bytes name.now) file.entry) complaint)) }
{
    let status = complaint.status();
    match write_complaint(complaint, file_name(file), err) {
        Ok(()) => Ok(status),
        Err(_) => Err(Stop::WriteFault),
    }
}

impl Complaint {
    fn status(&self) -> u8
        ensures { result ≡ complaint_status self.now }
    {
        match self {
            Complaint::BadWords(_) | Complaint::WrongNames(_, _) | Complaint::WrongLabel(_) => 1,
            Complaint::Refused(_) | Complaint::Misdirected(_) => 2,
        }
    }
}

fn file_name<'w>(file: Option<&'w String>) -> &'w [u8]
    ensures { result.now ≡ file_text (option_map (λ name. string_bytes name.now) file.entry) }
{
    match file {
        Some(name) => name.as_bytes(),
        None => b"<stdin>",
    }
}

fn write_complaint<K: Sink>(complaint: Complaint, file: &[u8], err: &mut K) -> Result<(), SinkFault>
    ensures text { Writes (K.held err.old) (K.held err.new) (said_of file.now complaint) result }
    ensures cause { HasCause (K.faults err.old) (K.faults err.new) result }
{
    match complaint {
        Complaint::BadWords(topic) => write_all(err, usage_of(topic).as_bytes()),
        Complaint::WrongNames(given, stages) => write_names(given, stages, err),
        Complaint::WrongLabel(word) => write_label(word.as_slice(), err),
        Complaint::Refused(refusal) => write_refusal(refusal, file, err),
        Complaint::Misdirected(said) => write_pieces(err, &[file, said.as_slice()]),
    }
}

#[tactic(auto, unfolding(crate::specs::Texts::names_text))]
fn write_names<K: Sink>(given: usize, stages: u8, err: &mut K) -> Result<(), SinkFault>
    ensures text { Writes (K.held err.old) (K.held err.new) (names_text given stages) result }
    ensures cause { HasCause (K.faults err.old) (K.faults err.new) result }
{
    let (mut many, mut wanted) = (Buffer::new(), Buffer::new());
    let pieces = [
        b"kpview: names of stages: ".as_slice(),
        many.format(given).as_bytes(),
        b", stages of the job: ".as_slice(),
        wanted.format(stages).as_bytes(),
        b"; give a name for each stage, or none\n".as_slice(),
    ];
    write_pieces(err, &pieces)
}

#[tactic(auto, unfolding(crate::specs::Texts::label_wrong))]
fn write_label<K: Sink>(word: &[u8], err: &mut K) -> Result<(), SinkFault>
    ensures text { Writes (K.held err.old) (K.held err.new) (label_wrong word.now) result }
    ensures cause { HasCause (K.faults err.old) (K.faults err.new) result }
{
    let pieces = [
        b"kpview: a label is a register, a pipe, a result or a word as `F[0]`; not `".as_slice(),
        word,
        b"`\n".as_slice(),
    ];
    write_pieces(err, &pieces)
}

#[tactic(auto, using(kp_base::proofs::Bytes::writes_next, kp_base::proofs::Bytes::part_more))]
fn write_refusal<K: Sink>(refusal: Refusal, file: &[u8], err: &mut K) -> Result<(), SinkFault>
    ensures text { Writes (K.held err.old) (K.held err.new) (refusal_said file.now refusal) result }
    ensures cause { HasCause (K.faults err.old) (K.faults err.new) result }
{
    write_all(err, file)?;
    write_rule(refusal, err)
}

// Writes the place and the rule, after the name of the file.
#[tactic(auto, unfolding(crate::specs::Texts::rule_said))]
fn write_rule<K: Sink>(refusal: Refusal, err: &mut K) -> Result<(), SinkFault>
    ensures text { Writes (K.held err.old) (K.held err.new) (rule_said refusal) result }
    ensures cause { HasCause (K.faults err.old) (K.faults err.new) result }
{
    let (mut number, mut line, mut col) = (Buffer::new(), Buffer::new(), Buffer::new());
    let pieces = [
        b":".as_slice(),
        line.format(refusal.place.line).as_bytes(),
        b":".as_slice(),
        col.format(refusal.place.col).as_bytes(),
        b": error ".as_slice(),
        letter(refusal.family),
        number.format(refusal.number).as_bytes(),
        b": ".as_slice(),
        sentence_of(refusal.number).as_bytes(),
        b"\n".as_slice(),
    ];
    write_pieces(err, &pieces)
}

fn letter(family: Family) -> &'static [u8]
    ensures { result.now ≡ family_letter family }
{
    match family {
        Family::E => b"E",
        Family::V => b"V",
        Family::A => b"A",
    }
}
