// The bytes of plain names.
ghost use Rattle.std.specs.Prelude.{◌≡◌};
ghost use Rattle.std.specs.List.{list_all};
ghost use Rattle.sg_text.specs.Names.{is_name_byte, is_name_start, is_simple};

/// Whether a plain name may begin with the byte: a letter or an underscore.
pub fn is_name_start(b: u8) -> bool
    ensures { result ≡ is_name_start b }
{
    b.is_ascii_alphabetic() || b == b'_'
}

/// Whether a plain name may go on with the byte: a letter, a digit, an underscore or a dollar sign.
pub fn is_name_byte(b: u8) -> bool
    ensures { result ≡ is_name_byte b }
{
    b.is_ascii_alphanumeric() || b == b'_' || b == b'$'
}

fn are_name_bytes(bytes: &[u8]) -> bool
    ensures { result ≡ list_all is_name_byte bytes.now }
{
    bytes.iter().all(|b| is_name_byte(*b))
}

/// Whether the bytes are a simple identifier (IEEE 1364-2005, 3.7), which may be a reserved word.
#[tactic(auto, using(crate::proofs::NameLaws::simple_from_first))]
pub fn is_simple_name(bytes: &[u8]) -> bool
    ensures { result ≡ is_simple bytes.now }
{
    match bytes {
        [] => false,
        [first, rest @ ..] => is_name_start(*first) && are_name_bytes(rest),
    }
}
