// The tokens that can follow: V2.
ghost use Rattle.std.specs.Prelude.{◌≡◌, ◌↔◌, List, [], map, IfOk};
ghost use Rattle.kp_vlog.specs.{Language.verilog, Language.MODULE, Tokens.Token};
ghost use Rattle.kp_expected.specs.GoesOn.{GoesOn};
ghost use Rattle.kp_view_verilog_faults.specs.Classes.{class_in, class_of, Lists};

use crate::class::Class;
use crate::part::{CLASSES, Part};
use kp_base::NoMemory;
use kp_vlog::VToken;
use std::alloc::Global;
use std::fmt::{self, Display};

/// A set of classes of tokens, those with which some module continues at a place; none after the end of a module.
#[derive(Clone, Copy)]
pub struct Expected {
    /// Which of all classes are in the set.
    listed: [bool; 43],
}

// The operators are these of all classes.
const FIRST_OPERATOR: usize = 30;

const LAST_OPERATOR: usize = 39;

/// The classes of tokens with which some module continues after these tokens: none, where no module begins with them.
pub fn following(alloc: Global, front: &[VToken]) -> Result<Expected, NoMemory>
    // A token is of a listed class exactly where some module begins with tokens of these classes and this one.
    ensures { IfOk result (λ e. (tokens : List Token) (t : Token) → map (λ u. class_in u.word) tokens ≡ map (λ u. class_of u.kind) front.now → Lists e (class_in t.word) ↔ GoesOn verilog MODULE [] tokens t) }
{
    let classes = classes_of(alloc, front)?;
    let mut listed = [false; 43];
    kp_expected::expected(
        alloc,
        Part::Module,
        classes.as_slice(),
        CLASSES,
        &mut listed,
    )?;
    Ok(Expected { listed })
}

fn classes_of(alloc: Global, tokens: &[VToken]) -> Result<Vec<Class>, NoMemory>
    ensures { IfOk result (λ classes. classes.items ≡ map (λ t. class_of t.kind) tokens.now) }
{
    let mut classes = Vec::new(alloc);
    for token in tokens {
        classes.push(Class::of(token.kind))?;
    }
    Ok(classes)
}

impl Expected {
    // Whether each operator is in the set: then all of them are written as one, in the place of the last.
    fn has_operators(&self) -> bool {
        for i in FIRST_OPERATOR..LAST_OPERATOR + 1 {
            if !self.listed[i] {
                return false;
            }
        }
        true
    }

    // How many classes are written, or groups of them.
    fn count(&self, grouped: bool) -> usize {
        let mut count = 0usize;
        for i in 0..43 {
            if self.listed[i] && !is_before_last(grouped, i) {
                count = count.saturating_add(1);
            }
        }
        count
    }
}

// Whether the class with this index is an operator that is written with the last one.
fn is_before_last(grouped: bool, i: usize) -> bool {
    grouped && i >= FIRST_OPERATOR && i < LAST_OPERATOR
}

impl Display for Expected {
    fn fmt<W: fmt::Write>(&self, f: &mut fmt::Formatter<W>) -> fmt::Result {
        let grouped = self.has_operators();
        let count = self.count(grouped);
        if count == 0 {
            return f.write_str("the end of the text");
        }
        let mut number = 0usize;
        for (i, class) in CLASSES.iter().enumerate() {
            if self.listed[i] && !is_before_last(grouped, i) {
                f.write_str(separator(number, count))?;
                if grouped && i == LAST_OPERATOR {
                    f.write_str("an operator")?;
                } else {
                    class.fmt(f)?;
                }
                number = number.saturating_add(1);
            }
        }
        Ok(())
    }
}

// What is written before the word with this index among so many.
fn separator(index: usize, count: usize) -> &'static str {
    if index == 0 {
        ""
    } else if index.saturating_add(1) == count {
        " or "
    } else {
        ", "
    }
}
