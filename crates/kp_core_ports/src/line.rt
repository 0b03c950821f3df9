// What a line asks for.
ghost use Rattle.std.specs.Prelude.{◌≡◌, ◌≤◌, ◌-◌, ◌^◌, ◌<◌, ◌&&◌, ◌∷◌, [], ℕ, length, map, take, codes, All, Some, IfOk, IfSome};
ghost use Rattle.std.specs.Str.{bytes_eq};
ghost use Rattle.kp_base.specs.{Place.place_after, Lines.IsWithin, Lines.piece_of};
ghost use Rattle.kp_machine.specs.Slots.{pipes_of};
ghost use Rattle.kp_bits.specs.Literals.{is_number};
ghost use Rattle.kp_core_ports.specs.Ports.{is_there, is_named, asks_register, no_target, target_ask, target_port, of_target, pipe_ask, pipe_label, pipe_port, of_pipe, of_commit, port_by, port_in, stage_of, Exists};
ghost use Rattle.kp_core_ports.specs.Rules.{Yields};
ghost use Rattle.kp_core_ports.specs.inner.Reading.{Finds};
ghost use Rattle.kp_core_ports.specs.declared.port.Ask.TheVariants.{Commit};
ghost use Rattle.kp_core_ports.specs.declared.port.PortsRefused.TheVariants as refused;

use crate::port::{Ask, PipeVerb, Port, PortRefusal, PortRule, PortsRefused, TargetVerb, Verb};
use crate::slots::{is_held, pipe_of, target_of};
use crate::words::{bytes_of, is_number, pipe_label, stage_of, verb_of};
use kp_base::{List, Run, place_of};
use kp_design::Layout;
use std::alloc::Global;

/// The ports that the tokens of a line ask for, after these ports, if it has any tokens.
pub fn port_in(
    alloc: Global,
    layout: &Layout<'_>,
    text: &[u8],
    ports: &[Port],
    words: &[Run],
) -> Result<Option<Port>, PortsRefused>
    requires runs { All (IsWithin text.now) words.now }
    requires fits { length text.now ≤ 2 ^ 32 - 2 }
    requires few { length layout.now.decls < 2 ^ 32 }
    ensures port { Finds result (port_in layout.now text.now ports.now (map (piece_of text.now) words.now)) }
    ensures exists { IfOk result (λ found. IfSome found (λ port. Exists layout.now port.ask)) }
{
    let [first, args @ ..] = words else {
        return Ok(None);
    };
    let verb = verb_of(bytes_of(text, *first));
    Ok(Some(port_by(alloc, layout, text, ports, first.at, verb, args)?))
}

// The same for a line with this first word at this offset, and these words after it.
fn port_by(
    alloc: Global,
    layout: &Layout<'_>,
    text: &[u8],
    ports: &[Port],
    at: u32,
    verb: Option<Verb>,
    args: &[Run],
) -> Result<Port, PortsRefused>
    requires at { at ≤ length text.now }
    requires runs { All (IsWithin text.now) args.now }
    requires fits { length text.now ≤ 2 ^ 32 - 2 }
    requires few { length layout.now.decls < 2 ^ 32 }
    ensures port { Yields result (port_by layout.now text.now ports.now at verb (map (piece_of text.now) args.now)) (λ port. port) }
    ensures exists { IfOk result (λ port. Exists layout.now port.ask) }
{
    match verb {
        Some(Verb::Target(verb)) => of_target(alloc, layout, text, ports, at, verb, args),
        Some(Verb::Pipe(verb)) => of_pipe(alloc, layout, text, ports, at, verb, args),
        Some(Verb::Commit) => of_commit(alloc, text, ports, at, args),
        None => Err(broken(text, PortRule::Form, at)),
    }
}

// The rule is violated at this offset.
fn broken(text: &[u8], rule: PortRule, at: u32) -> PortsRefused
    requires within { at ≤ length text.now }
    requires fits { length text.now ≤ 2 ^ 32 - 2 }
    ensures { result ≡ refused.Rule (record { rule = rule; place = place_after (take at text.now) }) }
{
    PortsRefused::Rule(PortRefusal {
        rule,
        place: place_of(text, at),
    })
}

// Whether one of the ports has the name that this word and label give.
fn is_there(ports: &[Port], verb: Verb, label: &[u8]) -> bool
    ensures { result ≡ is_there ports.now verb label.now }
{
    ports.iter().any(|port| is_named(verb, label, port))
}

fn is_named(verb: Verb, label: &[u8], port: &Port) -> bool
    ensures { result ≡ is_named verb label.now port.now }
{
    port.ask.verb().prefix() == verb.prefix() && port.label.as_slice() == label
}

// `show R`, `peek F` and `load F`.
fn of_target(
    alloc: Global,
    layout: &Layout<'_>,
    text: &[u8],
    ports: &[Port],
    at: u32,
    verb: TargetVerb,
    args: &[Run],
) -> Result<Port, PortsRefused>
    requires at { at ≤ length text.now }
    requires runs { All (IsWithin text.now) args.now }
    requires fits { length text.now ≤ 2 ^ 32 - 2 }
    requires few { length layout.now.decls < 2 ^ 32 }
    ensures port { Yields result (of_target layout.now text.now ports.now at verb (map (piece_of text.now) args.now)) (λ port. port) }
    ensures exists { IfOk result (λ port. Exists layout.now port.ask) }
{
    let [name] = args else {
        return Err(broken(text, PortRule::Form, at));
    };
    target_named(alloc, layout, text, ports, at, verb, *name)
}

// The same with this name.
fn target_named(
    alloc: Global,
    layout: &Layout<'_>,
    text: &[u8],
    ports: &[Port],
    at: u32,
    verb: TargetVerb,
    name: Run,
) -> Result<Port, PortsRefused>
    requires at { at ≤ length text.now }
    requires name { IsWithin text.now name }
    requires fits { length text.now ≤ 2 ^ 32 - 2 }
    requires few { length layout.now.decls < 2 ^ 32 }
    ensures port { Yields result (of_target layout.now text.now ports.now at verb (piece_of text.now name ∷ [])) (λ port. port) }
    ensures exists { IfOk result (λ port. Exists layout.now port.ask) }
{
    let label = bytes_of(text, name);
    if is_there(ports, Verb::Target(verb), label) {
        return Err(broken(text, PortRule::Taken, at));
    }
    let decls = layout.job().decls.as_slice();
    let target = target_of(decls, asks_register(verb), label);
    target_port(alloc, text, verb, name, target)
}

fn asks_register(verb: TargetVerb) -> bool
    ensures { result ≡ asks_register verb }
{
    match verb {
        TargetVerb::Show => true,
        TargetVerb::Peek | TargetVerb::Load => false,
    }
}

// The rule that such a line violates without its target.
fn no_target(verb: TargetVerb) -> PortRule
    ensures { result ≡ no_target verb }
{
    match verb {
        TargetVerb::Show => PortRule::NoRegister,
        TargetVerb::Peek | TargetVerb::Load => PortRule::NoFile,
    }
}

fn target_ask(verb: TargetVerb, target: u32) -> Ask
    ensures { result ≡ target_ask verb target }
{
    match verb {
        TargetVerb::Show => Ask::Show(target),
        TargetVerb::Peek => Ask::Peek(target),
        TargetVerb::Load => Ask::Load(target),
    }
}

// The ports of the target with this name, if there is one.
fn target_port(
    alloc: Global,
    text: &[u8],
    verb: TargetVerb,
    name: Run,
    target: Option<u32>,
) -> Result<Port, PortsRefused>
    requires name { IsWithin text.now name }
    requires fits { length text.now ≤ 2 ^ 32 - 2 }
    ensures port { Yields result (target_port text.now verb (piece_of text.now name) target) (λ port. port) }
    ensures ask { IfOk result (λ port. (t : ℕ) × (target ≡ Some t) × (port.ask ≡ target_ask verb t)) }
{
    let Some(target) = target else {
        return Err(broken(text, no_target(verb), name.at));
    };
    let label = Vec::from_slice(alloc, bytes_of(text, name))?;
    Ok(Port {
        ask: target_ask(verb, target),
        label: List::new(label),
    })
}

// `probe P at k` and `next P at k`.
fn of_pipe(
    alloc: Global,
    layout: &Layout<'_>,
    text: &[u8],
    ports: &[Port],
    at: u32,
    verb: PipeVerb,
    args: &[Run],
) -> Result<Port, PortsRefused>
    requires at { at ≤ length text.now }
    requires runs { All (IsWithin text.now) args.now }
    requires fits { length text.now ≤ 2 ^ 32 - 2 }
    requires few { length layout.now.decls < 2 ^ 32 }
    ensures port { Yields result (of_pipe layout.now text.now ports.now at verb (map (piece_of text.now) args.now)) (λ port. port) }
    ensures exists { IfOk result (λ port. Exists layout.now port.ask) }
{
    match args {
        [name, word, stage] => pipe_named(
            alloc, layout, text, ports, at, verb, *name, *word, *stage,
        ),
        _ => Err(broken(text, PortRule::Form, at)),
    }
}

// Whether these words are `at` and a number.
fn is_in_stage(word: &[u8], stage: &[u8]) -> bool
    ensures { result ≡ (bytes_eq word.now (codes "at") && is_number stage.now) }
{
    word == b"at".as_slice() && is_number(stage)
}

// The same with these three words.
fn pipe_named(
    alloc: Global,
    layout: &Layout<'_>,
    text: &[u8],
    ports: &[Port],
    at: u32,
    verb: PipeVerb,
    name: Run,
    word: Run,
    stage: Run,
) -> Result<Port, PortsRefused>
    requires at { at ≤ length text.now }
    requires name { IsWithin text.now name }
    requires word { IsWithin text.now word }
    requires stage { IsWithin text.now stage }
    requires fits { length text.now ≤ 2 ^ 32 - 2 }
    requires few { length layout.now.decls < 2 ^ 32 }
    ensures port { Yields result (of_pipe layout.now text.now ports.now at verb (piece_of text.now name ∷ piece_of text.now word ∷ piece_of text.now stage ∷ [])) (λ port. port) }
    ensures exists { IfOk result (λ port. Exists layout.now port.ask) }
{
    let digits = bytes_of(text, stage);
    if !is_in_stage(bytes_of(text, word), digits) {
        return Err(broken(text, PortRule::Form, at));
    }
    let label = pipe_label(alloc, bytes_of(text, name), stage_of(digits))?;
    if is_there(ports, Verb::Pipe(verb), label.as_slice()) {
        return Err(broken(text, PortRule::Taken, at));
    }
    let pipe = pipe_of(layout.job().decls.as_slice(), bytes_of(text, name));
    pipe_port(layout, text, verb, name, stage, pipe, label)
}

fn pipe_ask(verb: PipeVerb, pipe: u32, stage: u32) -> Ask
    ensures { result ≡ pipe_ask verb pipe stage }
{
    match verb {
        PipeVerb::Probe => Ask::Probe(pipe, stage),
        PipeVerb::Next => Ask::Next(pipe, stage),
    }
}

// The port of the pipe with this name, if there is one, in a stage.
#[tactic(auto, using(crate::proofs::Existing::pipe_exists))]
fn pipe_port(
    layout: &Layout<'_>,
    text: &[u8],
    verb: PipeVerb,
    name: Run,
    stage: Run,
    pipe: Option<u32>,
    label: Vec<u8>,
) -> Result<Port, PortsRefused>
    requires name { IsWithin text.now name }
    requires stage { IsWithin text.now stage }
    requires fits { length text.now ≤ 2 ^ 32 - 2 }
    requires exists { IfSome pipe (λ x. x < length (pipes_of layout.now.decls)) }
    requires label { label.items ≡ pipe_label (piece_of text.now name).bytes (stage_of (piece_of text.now stage).bytes) }
    ensures port { Yields result (pipe_port layout.now text.now verb (piece_of text.now name) (piece_of text.now stage) pipe) (λ port. port) }
    ensures exists { IfOk result (λ port. Exists layout.now port.ask) }
{
    let Some(pipe) = pipe else {
        return Err(broken(text, PortRule::NoPipe, name.at));
    };
    let number = stage_of(bytes_of(text, stage));
    if !is_held(layout, pipe, number) {
        return Err(broken(text, PortRule::NoStage, stage.at));
    }
    Ok(Port {
        ask: pipe_ask(verb, pipe, number as u32),
        label: List::new(label),
    })
}

// `commit`.
fn of_commit(
    alloc: Global,
    text: &[u8],
    ports: &[Port],
    at: u32,
    args: &[Run],
) -> Result<Port, PortsRefused>
    requires at { at ≤ length text.now }
    requires fits { length text.now ≤ 2 ^ 32 - 2 }
    ensures port { Yields result (of_commit text.now ports.now at (map (piece_of text.now) args.now)) (λ port. port) }
    ensures ask { IfOk result (λ port. port.ask ≡ Commit) }
{
    if !args.is_empty() {
        return Err(broken(text, PortRule::Form, at));
    }
    if is_there(ports, Verb::Commit, b"") {
        return Err(broken(text, PortRule::Taken, at));
    }
    Ok(Port {
        ask: Ask::Commit,
        label: List::new(Vec::new(alloc)),
    })
}
