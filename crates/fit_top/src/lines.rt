// Lines of the report that aren't those of changes.
ghost use Rattle.std.specs.Prelude.{◌≡◌, ◌++◌, IfOk, OnOk, codes, flat_map, map, slice_index_or, []};
ghost use Rattle.fit_top.specs.Answer.{line, missing_line, part_text, place_text, sdf_kind, unfit_line};

use fit_changes::Unfit;
use itoa::Buffer;
use sdf_read::SdfKind;
use sg_text::NoMemory;
use std::alloc::Global;

pub const USAGE: &str =
    "usage: fit NETLIST.. --out FOLDER [--sdf FILE].. [--define NAME[=TEXT]].. [--include FOLDER].. [--top NAME] [--supply0 NET].. [--supply1 NET].. [--cut INSTANCE[:PIN,..]].. [--drop CELL].. [--drop-missing] [--no-checks PATH].. [--no-notifier PATH].. [--strict]";

/// A text on a line of its own.
pub fn line_of(alloc: Global, before: &str, name: &str) -> Result<Vec<u8>, NoMemory>
    ensures { IfOk result (λ text. text.items ≡ line (before.now ++ name.now)) }
{
    let mut text = Vec::from_slice(alloc, before.as_bytes())?;
    text.extend_from_slice(name.as_bytes())?;
    text.push(b'\n')?;
    Ok(text)
}

// A line of a file, and what is there.
fn push_place(text: &mut Vec<u8>, name: &str, number: u64, kind: &[u8]) -> Result<(), NoMemory>
    ensures { OnOk result (text.new.items ≡ text.old.items ++ place_text name.now number kind.now) }
{
    let mut buffer = Buffer::new();
    text.extend_from_slice(name.as_bytes())?;
    text.extend_from_slice(b":")?;
    text.extend_from_slice(buffer.format(number).as_bytes())?;
    text.extend_from_slice(b": ")?;
    text.extend_from_slice(kind)?;
    Ok(())
}

fn push_within(text: &mut Vec<u8>, part: &[u8]) -> Result<(), NoMemory>
    ensures { OnOk result (text.new.items ≡ text.old.items ++ (codes " in " ++ part.now)) }
{
    text.extend_from_slice(b" in ")?;
    text.extend_from_slice(part)?;
    Ok(())
}

// The module or primitive in which it is, if it is in one.
fn push_part(text: &mut Vec<u8>, part: &[u8]) -> Result<(), NoMemory>
    ensures { OnOk result (text.new.items ≡ text.old.items ++ part_text part.now) }
{
    match part {
        [] => Ok(()),
        _ => push_within(text, part),
    }
}

fn name_at<'a>(names: &[&'a str], file: u32) -> &'a str
    ensures { result.now ≡ slice_index_or (map (λ n. n.now) names.now) file [] }
{
    match names.get(file as usize) {
        Some(name) => *name,
        None => "",
    }
}

fn push_unfit(text: &mut Vec<u8>, names: &[&str], place: &Unfit) -> Result<(), NoMemory>
    ensures { OnOk result (text.new.items ≡ text.old.items ++ unfit_line (map (λ n. n.now) names.now) place.now) }
{
    push_place(text, name_at(names, place.file), place.line, &place.kind)?;
    push_part(text, &place.part)?;
    text.push(b'\n')?;
    Ok(())
}

/// The lines of places that aren't taken, in files of these names.
pub fn unfit_lines(alloc: Global, names: &[&str], places: &[Unfit]) -> Result<Vec<u8>, NoMemory>
    ensures { IfOk result (λ text. text.items ≡ flat_map (unfit_line (map (λ n. n.now) names.now)) places.now) }
{
    let mut text = Vec::new(alloc);
    for place in places {
        push_unfit(&mut text, names, place)?;
    }
    Ok(text)
}

fn sdf_word(kind: SdfKind) -> &'static str
    ensures { result.now ≡ sdf_kind kind }
{
    match kind {
        SdfKind::BadByte => "BadByte",
        SdfKind::Syntax => "Syntax",
        SdfKind::BadCount => "BadCount",
        SdfKind::BadNumber => "BadNumber",
        SdfKind::TooDeep => "TooDeep",
        SdfKind::FileTooLarge => "FileTooLarge",
        SdfKind::LimitsCross => "LimitsCross",
    }
}

/// Adds the line of a fault in an SDF file.
pub fn push_fault(
    text: &mut Vec<u8>,
    name: &str,
    number: u64,
    kind: SdfKind,
) -> Result<(), NoMemory>
    ensures { OnOk result (text.new.items ≡ text.old.items ++ line (place_text name.now number (sdf_kind kind))) }
{
    push_place(text, name, number, sdf_word(kind).as_bytes())?;
    text.push(b'\n')?;
    Ok(())
}
