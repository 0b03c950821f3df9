// Classes of bytes, and the length of a run of bytes of one class.
ghost use Rattle.std.specs.Prelude.{◌≡◌, ◌≤◌, ℕ, Bool, length};
ghost use Rattle.kp_base.specs.Characters.{is_digit, is_letter, is_word, run_length, Computes};

/// A decimal digit.
pub fn is_digit(byte: u8) -> bool
    ensures { result ≡ is_digit byte }
{
    byte.is_ascii_digit()
}

/// A letter or `_`: the first character of a name.
pub fn is_letter(byte: u8) -> bool
    ensures { result ≡ is_letter byte }
{
    byte.is_ascii_alphabetic() || byte == b'_'
}

/// A letter, a digit or `_`: a later character of a name.
pub fn is_word(byte: u8) -> bool
    ensures { result ≡ is_word byte }
{
    byte.is_ascii_alphanumeric() || byte == b'_'
}

/// The length of the longest prefix of the text whose bytes all pass the test.
pub fn run_length<F: Fn(u8) -> bool>(text: &[u8], test: F) -> usize
    requires { F.IsAlwaysCallable test }
    ensures value { (passes : ℕ → Bool) → Computes (F.post test) passes → result ≡ run_length passes text.now }
    ensures within { result ≤ length text.now }
{
    for (i, byte) in text.iter().enumerate() {
        if !test(*byte) {
            return i;
        }
    }
    text.len()
}

/// The length of the longest prefix that consists of letters, digits and `_`.
pub fn word_length(text: &[u8]) -> usize
    ensures value { result ≡ run_length is_word text.now }
    ensures within { result ≤ length text.now }
{
    run_length(text, is_word)
}
