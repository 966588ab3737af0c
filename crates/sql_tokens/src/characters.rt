//! Kinds of bytes.
ghost use Rattle.std.specs.Prelude.{◌≡◌};
ghost use Rattle.sql_tokens.specs.Characters.{is_space_byte, is_word_start, is_word_byte};

/// Whether a byte stands between tokens.
pub(crate) fn is_space(byte: u8) -> bool
    ensures { result ≡ is_space_byte byte }
{
    matches!(byte, b' ' | b'\t' | b'\n' | 12 | b'\r')
}

/// Whether a word may begin with a byte.
pub(crate) fn is_word_start(byte: u8) -> bool
    ensures { result ≡ is_word_start byte }
{
    byte.is_ascii_alphabetic() || byte == b'_' || byte >= 0x80
}

/// Whether a word may go on with a byte.
pub(crate) fn is_word_byte(byte: u8) -> bool
    ensures { result ≡ is_word_byte byte }
{
    byte.is_ascii_alphabetic()
        || byte.is_ascii_digit()
        || byte == b'_'
        || byte == b'$'
        || byte >= 0x80
}
