// Files in memory: names and bytes.
ghost use Rattle.std.specs.Prelude.{◌≡◌, [], ◌++◌, OnOk, OnErr, option_copied, position, take};
ghost use Rattle.sg_io.specs.Files.{bytes_of, content_of, same_name, HasAfter, HasDistinctNames};

use std::alloc::{AllocError, Global};
use std::marker::Model;

#[derive(Debug, Drop)]
struct HeldFile {
    name: String,
    bytes: Vec<u8>,
}

impl Model for HeldFile {
    ghost use Rattle.std.specs.Prelude.{string_bytes};
    ghost use Rattle.sg_io.specs.Files.{File};

    ghost Value = { File };

    ghost view = { λ f. record { name = string_bytes f.name; bytes = f.bytes.items } };
}

impl HeldFile {
    fn has_name(&self, name: &str) -> bool
        ensures { result ≡ same_name self.now.name name.now }
    {
        self.name.as_str() == name
    }

    fn bytes(&self) -> &[u8]
        ensures { result.now ≡ self.now.bytes }
    {
        &self.bytes
    }

    fn set(&mut self, bytes: Vec<u8>)
        ensures { self.new ≡ record self.old { bytes = bytes.items } }
    {
        self.bytes = bytes;
    }

    fn add(&mut self, more: &[u8]) -> Result<(), AllocError>
        ensures name { self.new.name ≡ self.old.name }
        ensures ok { OnOk result (self.new ≡ record self.old { bytes = self.old.bytes ++ more.now }) }
        ensures err { OnErr result (self.new ≡ self.old) }
    {
        self.bytes.extend_from_slice(more)
    }
}

// Files; names that are distinct stay so.
#[derive(Debug, Drop)]
pub struct HeldFiles {
    files: Vec<HeldFile>,
}

impl Model for HeldFiles {
    ghost use Rattle.std.specs.Prelude.{List};
    ghost use Rattle.sg_io.specs.Files.{File};

    ghost Value = { List File };

    ghost view = { λ held. held.files.items };
}

// The place of the file of this name, if it is held.
fn place_of(files: &[HeldFile], name: &str) -> Option<usize>
    ensures { result ≡ position (λ f. same_name f.name name.now) files.now }
{
    files.iter().position(|file| file.has_name(name))
}

// Makes a file of a name that isn't held.
fn make(
    files: &mut Vec<HeldFile>,
    alloc: Global,
    name: &str,
    bytes: Vec<u8>,
) -> Result<(), AllocError>
    requires { bytes_of name.now files.old.items ≡ None }
    ensures ok { OnOk result (HasAfter name.now bytes.items files.old.items files.new.items) }
    ensures err { OnErr result (files.new.items ≡ files.old.items) }
    ensures distinct { HasDistinctNames files.old.items → HasDistinctNames files.new.items }
{
    let name = String::from_str(alloc, name)?;
    files.push(HeldFile { name, bytes })?;
    Ok(())
}

impl HeldFiles {
    // No files.
    pub fn new(alloc: Global) -> Self
        ensures { result ≡ [] }
    {
        HeldFiles {
            files: Vec::new(alloc),
        }
    }

    // The bytes of the file of this name, if it is held.
    pub fn get(&self, name: &str) -> Option<&[u8]>
        ensures { option_copied result ≡ bytes_of name.now self.now }
    {
        let place = place_of(&self.files, name)?;
        Some(self.files[place].bytes())
    }

    // Gives the file of this name these bytes in place of all that it had; one that isn't held is made.
    pub fn set(&mut self, alloc: Global, name: &str, bytes: Vec<u8>) -> Result<(), AllocError>
        ensures ok { OnOk result (HasAfter name.now bytes.items self.old self.new) }
        ensures err { OnErr result (self.new ≡ self.old) }
        ensures distinct { HasDistinctNames self.old → HasDistinctNames self.new }
    {
        match place_of(&self.files, name) {
            Some(place) => {
                self.files[place].set(bytes);
                Ok(())
            }
            None => make(&mut self.files, alloc, name, bytes),
        }
    }

    // Adds bytes to the file of this name; one that isn't held is made of them.
    pub fn add(&mut self, alloc: Global, name: &str, more: &[u8]) -> Result<(), AllocError>
        ensures ok { OnOk result (HasAfter name.now (content_of name.now self.old ++ more.now) self.old self.new) }
        ensures err { OnErr result (self.new ≡ self.old) }
        ensures distinct { HasDistinctNames self.old → HasDistinctNames self.new }
    {
        match place_of(&self.files, name) {
            Some(place) => self.files[place].add(more),
            None => make(&mut self.files, alloc, name, Vec::from_slice(alloc, more)?),
        }
    }
}
