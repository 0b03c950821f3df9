// The checks of declarations.
ghost use Rattle.std.specs.Prelude.{◌≡◌, ◌<◌, ◌+◌, ◌≤◌, ◌^◌, length, sum_by, None, OnOk, IfErr};
ghost use Rattle.kp_base.specs.Findings.{with_answer, with_answers};
ghost use Rattle.kp_width.specs.declared.fault.Stop.TheVariants as stop;
ghost use Rattle.kp_width.specs.inner.Steps.{Gives, HasRoom, IfFound, UnlessNoMemory};
ghost use Rattle.kp_width.specs.Names.{find, fresh, passed, look_up, sense, declared_text};
ghost use Rattle.kp_width.specs.Widths.{after_decl, after_decls, decl_answers, noted};
ghost use Rattle.kp_width.specs.Declarations.{declared, started_of, start_of, addresses_of, storage_of, address_width, address_fault, enable_fault, pipe_of, target_of, result_of, width_or_zero, function_opened, parameters_of, function_of, name_of, after_name, declaration_of, functions_in};

use crate::expressions::{check_value, is_in_range, literal_width};
use crate::fault::{Destination, Position, Stop, WidthFault, found_at};
use crate::names::{Meaning, Names};
use kp_ast::{Decl, FuncDecl, Lit, NameKind, Named, Num, Param, ResultDecl, Scope};
use kp_base::{Finding, Findings, NoMemory};

// Adds the declarations, and notes the violations in them.
pub(crate) fn note_decls(
    names: &mut Names,
    found: &mut Findings<Finding<WidthFault>>,
    decls: &[Decl],
) -> Result<(), NoMemory>
    requires { sum_by functions_in decls.now < 2 ^ 32 }
    ensures found { OnOk result (found.new ≡ with_answers found.old (decl_answers decls.now 0 0 names.old decls.now)) }
    ensures names { OnOk result (HasRoom found.new → names.new ≡ after_decls decls.now 0 0 names.old decls.now) }
{
    let mut functions = 0u32;
    for (i, decl) in decls.iter().enumerate() {
        if found.is_full() {
            return Ok(());
        }
        note_decl(names, found, decls, i, functions, decl)?;
        functions += functions_in(decl);
    }
    Ok(())
}

fn note_decl(
    names: &mut Names,
    found: &mut Findings<Finding<WidthFault>>,
    decls: &[Decl],
    i: usize,
    functions: u32,
    decl: &Decl,
) -> Result<(), NoMemory>
    requires { i ≤ length decls.now }
    ensures found { OnOk result (found.new ≡ with_answer found.old (noted names.old (declaration_of decls.now i functions names.old decl.now).found)) }
    ensures names { OnOk result (names.new ≡ after_decl decls.now i functions names.old decl.now) }
{
    match add_decl(names, decls, i, functions, decl) {
        Ok(()) => Ok(()),
        Err(Stop::Found(finding)) => {
            found.note(names.listed(finding))?;
            names.doubt_text(&declared_name(decl).name)
        }
        Err(Stop::NoMemory) => Err(NoMemory),
    }
}

fn functions_in(decl: &Decl) -> u32
    ensures { result ≡ functions_in decl.now }
{
    match decl {
        Decl::Func(_) => 1,
        _ => 0,
    }
}

fn add_decl(
    names: &mut Names,
    decls: &[Decl],
    i: usize,
    functions: u32,
    decl: &Decl,
) -> Result<(), Stop>
    requires { i ≤ length decls.now }
    ensures steps { Gives result (declaration_of decls.now i functions names.old decl.now).found (λ _. names.new) }
    ensures text { IfFound result (names.new.text ≡ names.old.text) }
    ensures doubts { IfFound result (names.new.doubts ≡ names.old.doubts) }
{
    check_fresh(names, declared_name(decl))?;
    add_new(names, decls, i, functions, decl)
}

/// The name that a declaration declares.
pub fn declared_name(decl: &Decl) -> &Named
    ensures { result.now ≡ name_of decl.now }
{
    match decl {
        Decl::Reg(name, _, _)
        | Decl::File(name, _, _)
        | Decl::Pipe(name, _)
        | Decl::Hint(name, _, _)
        | Decl::Sample(name, _, _) => name,
        Decl::Target(result) => &result.name,
        Decl::Func(func) => &func.name,
    }
}

// A declaration whose name is new.
fn add_new(
    names: &mut Names,
    decls: &[Decl],
    i: usize,
    functions: u32,
    decl: &Decl,
) -> Result<(), Stop>
    requires done { i ≤ length decls.now }
    requires fresh { look_up names.old.text (name_of decl.now).name ≡ None }
    ensures steps { Gives result (after_name decls.now i functions names.old decl.now).found (λ _. names.new) }
    ensures text { IfFound result (names.new.text ≡ names.old.text) }
    ensures doubts { IfFound result (names.new.doubts ≡ names.old.doubts) }
{
    match decl {
        Decl::Reg(name, number, start) => {
            let width = started_width(*number, *start)?;
            add_plain(names, name, NameKind::Reg, width, i)
        }
        Decl::File(name, number, address) => {
            let width = declared_width(*number)?;
            let address = addresses(*address)?;
            add_plain(names, name, NameKind::File(address), width, i)
        }
        Decl::Pipe(name, number) => {
            let width = declared_width(*number)?;
            add_plain(names, name, NameKind::Pipe, width, i)
        }
        Decl::Hint(name, number, start) => {
            let width = started_width(*number, *start)?;
            add_plain(names, name, NameKind::Hint, width, i)
        }
        Decl::Target(result) => {
            let width = result_width(names, result)?;
            add_plain(names, &result.name, NameKind::Target, width, i)
        }
        Decl::Func(func) => add_func(names, decls, i, functions, func),
        Decl::Sample(name, number, _) => {
            let width = declared_width(*number)?;
            add_plain(names, name, NameKind::Sample, width, i)
        }
    }
}

fn add_plain(
    names: &mut Names,
    named: &Named,
    kind: NameKind,
    width: u8,
    from: usize,
) -> Result<(), Stop>
    requires { look_up names.old.text named.now.name ≡ None }
    ensures added { OnOk result (names.new ≡ declared_text names.old named.now.name (sense kind width from)) }
    ensures memory { IfErr result (λ e. e ≡ stop.NoMemory) }
{
    names.declare_text(&named.name, Meaning::new(kind, width, from))?;
    Ok(())
}

fn declared_width(number: Num) -> Result<u8, Finding<WidthFault>>
    ensures { result ≡ (declared number).found }
{
    if !is_in_range(number.value) {
        let width = number.value;
        return Err(found_at(number.at, WidthFault::DeclaredWidth { width }));
    }
    Ok(number.value as u8)
}

// The width of a register or a hint.
fn started_width(number: Num, start: Lit) -> Result<u8, Finding<WidthFault>>
    ensures { result ≡ (started_of number start).found }
{
    let width = declared_width(number)?;
    check_start(start, width)?;
    Ok(width)
}

fn check_start(start: Lit, width: u8) -> Result<(), Finding<WidthFault>>
    ensures { result ≡ (start_of start width).found }
{
    let found = literal_width(start.literal, start.at)?;
    if found != width {
        let wanted = u64::from(width);
        return Err(found_at(start.at, WidthFault::Start { found, wanted }));
    }
    Ok(())
}

// The width of a file's addresses.
fn addresses(number: Num) -> Result<u8, Finding<WidthFault>>
    ensures { result ≡ (addresses_of number).found }
{
    if number.value < 1 || number.value > 16 {
        let width = number.value;
        return Err(found_at(number.at, WidthFault::DeclaredAddress { width }));
    }
    Ok(number.value as u8)
}

fn result_width(names: &Names, result_decl: &ResultDecl) -> Result<u8, Finding<WidthFault>>
    ensures { result ≡ (result_of names.now result_decl.now).found }
{
    let width = declared_width(result_decl.width)?;
    check_target(names, result_decl, width)?;
    Ok(width)
}

// Checks a result after its width.
fn check_target(
    names: &Names,
    result_decl: &ResultDecl,
    width: u8,
) -> Result<(), Finding<WidthFault>>
    ensures { result ≡ (target_of names.now result_decl.now width).found }
{
    let addressed = result_decl.address.is_some();
    let target = storage(names, &result_decl.target, addressed)?;
    if target.width != width {
        let fault = WidthFault::Target {
            result: width,
            target: target.width,
            kind: target.kind,
            from: target.from,
        };
        return Err(found_at(result_decl.target.at, fault));
    }
    if let Some(pipe) = &result_decl.address {
        check_address_pipe(names, pipe, &target)?;
    }
    if let Some(pipe) = &result_decl.enable {
        check_enable(names, pipe)?;
    }
    Ok(())
}

// The meaning of a name that is a file if it has an address, else a register.
pub(crate) fn storage(
    names: &Names,
    named: &Named,
    addressed: bool,
) -> Result<Meaning, Finding<WidthFault>>
    ensures { result ≡ (storage_of names.now named.now addressed).found }
{
    if addressed {
        names.used(Position::File, &named.name, named.at)
    } else {
        names.used(Position::Register, &named.name, named.at)
    }
}

pub(crate) fn address_width(kind: NameKind) -> u8
    ensures { result ≡ address_width kind }
{
    match kind {
        NameKind::File(width) => width,
        _ => 0,
    }
}

// Checks the address pipe of a result, whose target is this file.
fn check_address_pipe(
    names: &Names,
    pipe: &Named,
    file: &Meaning,
) -> Result<(), Finding<WidthFault>>
    ensures { result ≡ (pipe_of names.now (address_width file.now.kind) (address_fault file.now) pipe.now).found }
{
    let found = names.used(Position::Pipe, &pipe.name, pipe.at)?.width;
    let wanted = address_width(file.kind);
    if found != wanted {
        let fault = WidthFault::Address {
            found,
            wanted,
            file: file.from,
        };
        return Err(found_at(pipe.at, fault));
    }
    Ok(())
}

// Checks the enable pipe of a result.
fn check_enable(names: &Names, pipe: &Named) -> Result<(), Finding<WidthFault>>
    ensures { result ≡ (pipe_of names.now 1 enable_fault pipe.now).found }
{
    let meaning = names.used(Position::Pipe, &pipe.name, pipe.at)?;
    if meaning.width != 1 {
        let fault = WidthFault::Enable {
            found: meaning.width,
            from: meaning.from,
        };
        return Err(found_at(pipe.at, fault));
    }
    Ok(())
}

// Checks and adds a function after its name.
fn add_func(
    names: &mut Names,
    decls: &[Decl],
    i: usize,
    functions: u32,
    func: &FuncDecl,
) -> Result<(), Stop>
    requires done { i ≤ length decls.now }
    requires fresh { look_up names.old.text func.now.name.name ≡ None }
    ensures steps { Gives result (function_of decls.now i functions names.old func.now).found (λ _. names.new) }
    ensures text { IfFound result (names.new.text ≡ names.old.text) }
    ensures doubts { IfFound result (names.new.doubts ≡ names.old.doubts) }
{
    open_func(names, functions, func)?;
    add_params(names, i, func.params.as_slice())?;
    let width = declared_width(func.width)?;
    let to = Destination::Body { function: i };
    check_value(decls, i, names, &func.body, width, to)?;
    names.add_text(&func.name.name, Meaning::new(NameKind::Func, width, i))?;
    Ok(())
}

// Opens the scope of a function.
fn open_func(names: &mut Names, functions: u32, func: &FuncDecl) -> Result<(), NoMemory>
    ensures { OnOk result (names.new ≡ function_opened names.old functions func.now) }
{
    let meaning = Meaning::new(NameKind::Func, width_or_zero(func.width.value), 0);
    names.enter(Scope::Text, &func.name.name, meaning)?;
    names.open(Scope::Function(functions));
    Ok(())
}

fn width_or_zero(width: u64) -> u8
    ensures { result ≡ width_or_zero width }
{
    if is_in_range(width) { width as u8 } else { 0 }
}

fn add_params(names: &mut Names, i: usize, params: &[Param]) -> Result<(), Stop>
    ensures steps { Gives result (parameters_of i names.old params.now).found (λ _. names.new) }
    ensures text { UnlessNoMemory result (names.new.text ≡ names.old.text) }
    ensures doubts { UnlessNoMemory result (names.new.doubts ≡ names.old.doubts) }
{
    for param in params {
        let name = &param.name;
        check_fresh(names, name)?;
        let width = declared_width(param.width)?;
        names.declare_local(&name.name, Meaning::new(NameKind::Param, width, i))?;
    }
    Ok(())
}

// Checks that a declared name is not in scope yet.
pub(crate) fn check_fresh(names: &Names, named: &Named) -> Result<(), Finding<WidthFault>>
    ensures value { result ≡ (fresh names.now named.now.name named.now.at passed).found }
    ensures fresh { OnOk result (find names.now named.now.name ≡ None) }
    ensures text { OnOk result (look_up names.now.text named.now.name ≡ None) }
{
    let Some(meaning) = names.find(&named.name) else {
        return Ok(());
    };
    let fault = if meaning.doubtful {
        WidthFault::Doubtful
    } else {
        WidthFault::DeclaredAgain {
            found: meaning.kind,
            from: meaning.from,
            here: names.here(),
        }
    };
    Err(found_at(named.at, fault))
}
