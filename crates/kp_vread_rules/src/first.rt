// The first of the names of a module that declares a name, or drives it.
ghost use Rattle.std.specs.Prelude.{◌≡◌, map, option_map};
ghost use Rattle.kp_vread_rules.specs.Firsts.{first_that, first_at, declares as is_declaration};
ghost use Rattle.kp_vread_rules.specs.inner.{Asking.does, Listed.occurrence_of, Roles.role_of};

use crate::names::Occurrence;
use crate::role::Role;
use kp_vlog::Named;

/// What a name does at the place that is sought.
#[derive(Clone, Copy)]
pub(crate) enum Sought {
    Declaration,
    /// It is the left side of an `assign`.
    Target,
    Start,
    Fill,
    Reset,
    Update,
}

/// The first of these names that is this one and does this.
pub(crate) fn first<'m>(
    names: &[Occurrence<'m>],
    sought: Sought,
    name: &[u8],
) -> Option<Occurrence<'m>>
    ensures { option_map occurrence_of result ≡ first_that (does sought) name.now (map occurrence_of names.now) }
{
    for occurrence in names {
        if is_sought(sought, occurrence.role) && name == occurrence.named.name.bytes() {
            return Some(*occurrence);
        }
    }
    None
}

/// Its offset, or that of the name itself if there is none.
pub(crate) fn first_at(names: &[Occurrence<'_>], sought: Sought, named: &Named) -> u32
    ensures { result ≡ first_at (does sought) named.now (map occurrence_of names.now) }
{
    match first(names, sought, named.name.bytes()) {
        Some(found) => found.named.at,
        None => named.at,
    }
}

fn is_sought(sought: Sought, role: Role) -> bool
    ensures { result ≡ does sought (role_of role) }
{
    match sought {
        Sought::Declaration => declares(role),
        Sought::Target => matches!(role, Role::Gives),
        Sought::Start => matches!(role, Role::StartsReg),
        Sought::Fill => matches!(role, Role::FillsFile),
        Sought::Reset => matches!(role, Role::ResetsReg),
        Sought::Update => matches!(role, Role::UpdatesReg | Role::UpdatesFile),
    }
}

fn declares(role: Role) -> bool
    ensures { result ≡ is_declaration (role_of role) }
{
    matches!(
        role,
        Role::DeclaresPort(_)
            | Role::DeclaresSample
            | Role::DeclaresReg
            | Role::DeclaresFile
            | Role::DeclaresInteger
            | Role::DeclaresWire
    )
}
