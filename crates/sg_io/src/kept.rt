// A file that stays open.
ghost use Rattle.std.specs.Prelude.{◌≡◌, ◌↔◌, IfSome, IsTrue, None, Result, string_bytes};
ghost use Rattle.sg_io.specs.Kept.{AddsToKept, Writes};

use crate::ShelfError;
use crate::streams::write_whole;
use std::io::Write;
use std::marker::Model;

/// An open file, and the name by which it was made.
#[derive(Drop)]
pub struct KeptFile<F: Write> {
    name: String,
    file: F,
}

impl<F: Write> Model for KeptFile<F> {
    ghost use Rattle.std.specs.Prelude.{string_bytes};
    ghost use Rattle.sg_io.specs.Kept.{KeptTold};

    ghost Value = { KeptTold };

    ghost view = { λ k. record { name = string_bytes k.name; contents = F.contents k.file } };
}

impl<F: Write> KeptFile<F> {
    /// A file that was made by this name.
    pub fn new(name: String, file: F) -> Self
        ensures { result.name ≡ string_bytes name }
    {
        KeptFile { name, file }
    }

    /// Whether it was made by this name.
    pub fn has_name(&self, name: &str) -> bool
        ensures { IsTrue result ↔ (self.now.name ≡ name.now) }
    {
        self.name.as_str() == name
    }

    /// Adds bytes behind those that were written.
    pub fn write(&mut self, bytes: &[u8]) -> Result<(), ShelfError>
        ensures name { self.new.name ≡ self.old.name }
        ensures bytes { Writes bytes.now self.old.contents self.new.contents result }
    {
        if write_whole(&mut self.file, bytes) {
            Ok(())
        } else {
            Err(ShelfError::Failed)
        }
    }
}

/// Adds bytes to the file that is open, if there is one that was made by this name.
pub fn add_to_kept<F: Write>(
    kept: &mut Option<KeptFile<F>>,
    name: &str,
    bytes: &[u8],
) -> Option<Result<(), ShelfError>>
    ensures added { IfSome result (λ end. AddsToKept name.now bytes.now kept.old kept.new end) }
    ensures passed { result ≡ None → (end : Result Unit ShelfError) → AddsToKept name.now bytes.now kept.old kept.new end }
{
    match kept {
        Some(file) if file.has_name(name) => Some(file.write(bytes)),
        _ => None,
    }
}
