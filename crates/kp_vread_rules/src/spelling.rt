// The forms of the names of each kind.
ghost use Rattle.std.specs.Prelude.{◌≡◌};
ghost use Rattle.std.specs.List.{list_all};
ghost use Rattle.kp_base.specs.Characters.{is_digit};
ghost use Rattle.kp_net.specs.Names.{is_module_name, is_reg_name, is_file_name, is_sample_name};
ghost use Rattle.kp_vlog.specs.Scope.{is_wire_name, is_output_name};

/// Whether a name is `m_`, perhaps followed by more bytes.
pub(crate) fn is_module(name: &[u8]) -> bool
    ensures { result ≡ is_module_name name.now }
{
    matches!(name, [b'm', b'_', ..])
}

/// Whether a name is `r_` or `q_`, and at least one more byte.
pub(crate) fn is_reg(name: &[u8]) -> bool
    ensures { result ≡ is_reg_name name.now }
{
    matches!(name, [b'r' | b'q', b'_', _, ..])
}

/// Whether a name is `f_` and at least one more byte.
pub(crate) fn is_file(name: &[u8]) -> bool
    ensures { result ≡ is_file_name name.now }
{
    matches!(name, [b'f', b'_', _, ..])
}

/// Whether a name is `s_` and at least one more byte.
pub fn is_sample(name: &[u8]) -> bool
    ensures { result ≡ is_sample_name name.now }
{
    matches!(name, [b's', b'_', _, ..])
}

/// Whether a name is `n` and at least one digit, and nothing else.
pub(crate) fn is_wire(name: &[u8]) -> bool
    ensures { result ≡ is_wire_name name.now }
{
    match name {
        [b'n', digits @ ..] => !digits.is_empty() && all_digits(digits),
        _ => false,
    }
}

fn all_digits(bytes: &[u8]) -> bool
    ensures { result ≡ list_all is_digit bytes.now }
{
    bytes.iter().all(|byte| byte.is_ascii_digit())
}

/// Whether a name is that of an output: `full`, `ue` or `back`.
pub fn is_output(name: &[u8]) -> bool
    ensures { result ≡ is_output_name name.now }
{
    name == b"full".as_slice() || name == b"ue".as_slice() || name == b"back".as_slice()
}
