// The first bytes of a text, as many as are wanted.
ghost use Rattle.std.specs.Prelude.{◌≡◌, take};

// As many as are wanted, at most all.
pub fn first_bytes(bytes: &[u8], wanted: u64) -> &[u8]
    ensures { result.now ≡ take wanted bytes.now }
{
    match usize::try_from(wanted) {
        Ok(wanted) if wanted < bytes.len() => &bytes[..wanted],
        _ => bytes,
    }
}
