// The command of a line.
ghost use Rattle.std.specs.Prelude.{[], ◌∷◌, ◌≡◌, ◌≤◌, ◌^◌, ◌<◌, length, map, All, ℕ, List};
ghost use Rattle.std.specs.Char.{is_digit};
ghost use Rattle.std.specs.List.{list_all};
ghost use Rattle.kp_bits.specs.Literals.{is_number};
ghost use Rattle.kp_base.specs.Lines.{piece_of, IsWithin};
ghost use Rattle.kp_debug_script.specs.Scripts.{verb_of, register_in, targets_in, register_from, count_of, value_of, is_literal, one_count, alone, no_register, declared_as, until_by, until_at, command_by, command_in};

use crate::command::{Command, Register, Verb};
use crate::fault::{Fault, ScriptFault};
use kp_ast::Decl;
use kp_base::Run;
use kp_bits::{Bits, Literal, LiteralFault, read_literal, read_number};
use kp_width::declared_name;

// The keyword that these bytes are, if they are one.
fn verb_of(word: &[u8]) -> Option<Verb>
    ensures { result ≡ verb_of word.now }
{
    if word == b"step".as_slice() {
        Some(Verb::Step)
    } else if word == b"back".as_slice() {
        Some(Verb::Back)
    } else if word == b"until".as_slice() {
        Some(Verb::Until)
    } else if word == b"show".as_slice() {
        Some(Verb::Show)
    } else if word == b"row".as_slice() {
        Some(Verb::Row)
    } else {
        None
    }
}

// The register with this name.
fn register_of(decls: &[Decl], name: &[u8]) -> Option<Register>
    requires { length decls.now < 2 ^ 32 }
    ensures { result ≡ register_from 0 decls.now name.now }
{
    let mut target = 0;
    for decl in decls {
        if let Some(register) = register_in(target, decl, name) {
            return Some(register);
        }
        target += targets_in(decl);
    }
    None
}

fn register_in(target: u32, decl: &Decl, name: &[u8]) -> Option<Register>
    ensures { result ≡ register_in target decl.now name.now }
{
    match decl {
        Decl::Reg(named, width, _) if named.name.bytes() == name => Some(Register {
            target,
            width: width.value,
            declared: named.at,
        }),
        _ => None,
    }
}

fn targets_in(decl: &Decl) -> u32
    ensures count { result ≡ targets_in decl.now }
    ensures at_most { result ≤ 1 }
{
    match decl {
        Decl::Reg(_, _, _) | Decl::File(_, _, _) => 1,
        _ => 0,
    }
}

/// The command that the tokens of a line form, if it has any tokens.
pub fn command_in(text: &[u8], decls: &[Decl], words: &[Run]) -> Option<Result<Command, Fault>>
    requires runs { All (IsWithin text.now) words.now }
    requires few { length decls.now < 2 ^ 32 }
    ensures { result ≡ command_in decls.now (map (piece_of text.now) words.now) }
{
    let [first, args @ ..] = words else {
        return None;
    };
    let verb = verb_of(bytes_of(text, *first));
    Some(command_by(text, decls, first.at, verb, args))
}

// The command with this keyword at this offset and these arguments. Of the rules that it violates, the one with the lowest number is returned.
fn command_by(
    text: &[u8],
    decls: &[Decl],
    at: u32,
    verb: Option<Verb>,
    args: &[Run],
) -> Result<Command, Fault>
    requires runs { All (IsWithin text.now) args.now }
    requires few { length decls.now < 2 ^ 32 }
    ensures { result ≡ command_by decls.now at verb (map (piece_of text.now) args.now) }
{
    match verb {
        Some(Verb::Step) => Ok(Command::Step(one_count(text, Verb::Step, at, args)?)),
        Some(Verb::Back) => Ok(Command::Back(one_count(text, Verb::Back, at, args)?)),
        Some(Verb::Until) => until_by(text, decls, at, args),
        Some(Verb::Show) => alone(Verb::Show, at, args, Command::Show),
        Some(Verb::Row) => alone(Verb::Row, at, args, Command::Row),
        None => Err(broken(ScriptFault::NoCommand, at)),
    }
}

fn broken(kind: ScriptFault, at: u32) -> Fault
    ensures { result ≡ record { kind = kind; at = at } }
{
    Fault { kind, at }
}

fn alone(verb: Verb, at: u32, args: &[Run], command: Command) -> Result<Command, Fault>
    ensures { (text : List ℕ) → result ≡ alone verb at (map (piece_of text) args.now) command }
{
    if args.is_empty() {
        Ok(command)
    } else {
        Err(broken(ScriptFault::Words { verb }, at))
    }
}

fn one_count(text: &[u8], verb: Verb, at: u32, args: &[Run]) -> Result<u32, Fault>
    requires { All (IsWithin text.now) args.now }
    ensures { result ≡ one_count verb at (map (piece_of text.now) args.now) }
{
    let [count] = args else {
        return Err(broken(ScriptFault::Words { verb }, at));
    };
    if !is_number(bytes_of(text, *count)) {
        let word = count.at;
        return Err(broken(ScriptFault::NoCount { verb, word }, at));
    }
    count_of(text, *count)
}

#[tactic(auto, using(crate::proofs::Words::not_three))]
fn until_by(text: &[u8], decls: &[Decl], at: u32, args: &[Run]) -> Result<Command, Fault>
    requires runs { All (IsWithin text.now) args.now }
    requires few { length decls.now < 2 ^ 32 }
    ensures { result ≡ until_by decls.now at (map (piece_of text.now) args.now) }
{
    let [name, literal, count] = args else {
        return Err(broken(ScriptFault::Words { verb: Verb::Until }, at));
    };
    until_of(text, decls, at, *name, *literal, *count)
}

// The same for `until` with these arguments.
fn until_of(
    text: &[u8],
    decls: &[Decl],
    at: u32,
    name: Run,
    literal: Run,
    count: Run,
) -> Result<Command, Fault>
    requires name { IsWithin text.now name }
    requires literal { IsWithin text.now literal }
    requires count { IsWithin text.now count }
    requires few { length decls.now < 2 ^ 32 }
    ensures { result ≡ until_by decls.now at (piece_of text.now name ∷ piece_of text.now literal ∷ piece_of text.now count ∷ []) }
{
    if !is_literal(bytes_of(text, literal)) {
        let word = literal.at;
        return Err(broken(ScriptFault::NoLiteral { word }, at));
    }
    if !is_number(bytes_of(text, count)) {
        let (verb, word) = (Verb::Until, count.at);
        return Err(broken(ScriptFault::NoCount { verb, word }, at));
    }
    until_at(text, decls, name, literal, count_of(text, count))
}

// The same, once the count is read.
fn until_at(
    text: &[u8],
    decls: &[Decl],
    name: Run,
    literal: Run,
    count: Result<u32, Fault>,
) -> Result<Command, Fault>
    requires name { IsWithin text.now name }
    requires literal { IsWithin text.now literal }
    requires few { length decls.now < 2 ^ 32 }
    ensures { result ≡ until_at decls.now (piece_of text.now name) (piece_of text.now literal) count }
{
    let most = count?;
    let Some(register) = register_of(decls, bytes_of(text, name)) else {
        return Err(broken(no_register(decls, bytes_of(text, name)), name.at));
    };
    let value = value_of(text, literal, register)?;
    Ok(Command::Until(register.target, value, most))
}

// How a name that is none of a register violates E41.
fn no_register(decls: &[Decl], name: &[u8]) -> ScriptFault
    ensures { result ≡ no_register (declared_as decls.now name.now) }
{
    match declared_as(decls, name) {
        Some(number) => ScriptFault::NoRegister { number },
        None => ScriptFault::Undeclared,
    }
}

// The number of the first declaration of a name.
fn declared_as(decls: &[Decl], name: &[u8]) -> Option<usize>
    ensures { result ≡ declared_as decls.now name.now }
{
    decls
        .iter()
        .position(|decl| declared_name(decl).name.bytes() == name)
}

// The bytes of a run.
fn bytes_of(text: &[u8], run: Run) -> &[u8]
    requires { IsWithin text.now run }
    ensures { result.now ≡ (piece_of text.now run).bytes }
{
    &text[run.at as usize..run.end as usize]
}

// The number of cycles that a token denotes, which is a number.
fn count_of(text: &[u8], run: Run) -> Result<u32, Fault>
    requires { IsWithin text.now run }
    ensures { result ≡ count_of (piece_of text.now run) }
{
    match read_number(bytes_of(text, run)) {
        Some(count) if count <= 100_000 => Ok(count as u32),
        _ => Err(broken(ScriptFault::ManyCycles, run.at)),
    }
}

// The value of a register that a token denotes.
fn value_of(text: &[u8], run: Run, register: Register) -> Result<Bits, Fault>
    requires { IsWithin text.now run }
    ensures { result ≡ value_of register (piece_of text.now run) }
{
    let Ok(literal) = read_literal(bytes_of(text, run)) else {
        return Err(broken(ScriptFault::LargeValue, run.at));
    };
    let Literal { width, value } = literal;
    if width != register.width {
        let kind = ScriptFault::Width {
            found: width,
            wanted: register.width,
            value,
            declared: register.declared,
        };
        return Err(broken(kind, run.at));
    }
    literal
        .fit()
        .map_err(|_| broken(ScriptFault::Value { value, width }, run.at))
}

fn is_literal(word: &[u8]) -> bool
    ensures { result ≡ is_literal word.now }
{
    match read_literal(word) {
        Err(LiteralFault::BadDigit) => false,
        _ => true,
    }
}

fn is_number(word: &[u8]) -> bool
    ensures { result ≡ is_number word.now }
{
    !word.is_empty() && are_digits(word)
}

fn are_digits(word: &[u8]) -> bool
    ensures { result ≡ list_all (λ c. is_digit c 10) word.now }
{
    word.iter().all(|c| c.is_ascii_digit())
}
