//! Names of nets.
ghost use Rattle.std.specs.Prelude.{◌≡◌};
ghost use Rattle.std.specs.List.{list_all};
ghost use Rattle.ht_statement.specs.Name.{is_name, is_name_byte};

/// Whether a byte may stand in a name: from 33 to 126, and none of `#`, `(`, `)`, `,` and `=` (ISCAS-89 format).
fn is_name_byte(byte: u8) -> bool
    ensures { result ≡ is_name_byte byte }
{
    matches!(byte, 33..=126) && !matches!(byte, b'#' | b'(' | b')' | b',' | b'=')
}

/// Whether all bytes of a text may stand in a name.
fn are_name_bytes(text: &[u8]) -> bool
    ensures { result ≡ list_all is_name_byte text.now }
{
    text.iter().all(|byte| is_name_byte(*byte))
}

/// The most bytes that a name may have.
const MAX_NAME_BYTES: usize = 255;

/// Whether a text is a name: 1 to 255 bytes that may stand in one.
pub(crate) fn is_name(text: &[u8]) -> bool
    ensures { result ≡ is_name text.now }
{
    matches!(text.len(), 1..=MAX_NAME_BYTES) && are_name_bytes(text)
}
