// The names of files as paths: their last parts, and their folders.
ghost use Rattle.std.specs.Prelude.{◌≡◌, ◌++◌, List, IfOk, map, option_map, not, string_bytes, unwrap_or, []};
ghost use Rattle.std.specs.List.{list_all, list_any};
ghost use Rattle.std.specs.Path.{path_parent, path_file_name};
ghost use Rattle.std.specs.Str.{bytes_eq};
ghost use Rattle.fit_words.specs.Paths.{are_distinct, has_last, is_folder_of, last_of, parts_of};
ghost use Rattle.fit_words.specs.Words.{are_apart, made_name};

use sg_text::NoMemory;
use std::alloc::Global;
use std::path::Path;

fn file_name(name: &str) -> Option<&str>
    ensures { option_map (λ last. last.now) result ≡ path_file_name name.now }
{
    Path::new(name).file_name()
}

fn last_of(name: &str) -> &str
    ensures { result.now ≡ last_of name.now }
{
    file_name(name).unwrap_or("")
}

fn has_last(name: &str) -> bool
    ensures { result ≡ has_last name.now }
{
    file_name(name).is_some()
}

fn parent_of(name: &str) -> &str
    ensures { result.now ≡ unwrap_or (path_parent name.now) [] }
{
    match Path::new(name).parent() {
        Some(folder) => folder.as_str(),
        None => "",
    }
}

// The parts of a path, without each `.`.
fn parts_of(alloc: Global, path: &str) -> Result<Vec<&str>, NoMemory>
    ensures { IfOk result (λ parts. map (λ part. part.now) parts.items ≡ parts_of path.now) }
{
    let mut parts = Vec::new(alloc);
    for component in Path::new(path).components() {
        let part = component.as_os_str();
        if part != "." {
            parts.push(part)?;
        }
    }
    Ok(parts)
}

fn is_folder_of(alloc: Global, folder: &str, name: &str) -> Result<bool, NoMemory>
    ensures { IfOk result (λ r. r ≡ is_folder_of folder.now name.now) }
{
    let own = parts_of(alloc, parent_of(name))?;
    let other = parts_of(alloc, folder)?;
    Ok(own == other)
}

fn each_has_last(names: &[&str]) -> bool
    ensures { result ≡ list_all (λ n. has_last n.now) names.now }
{
    names.iter().all(|name| has_last(name))
}

fn have_lasts(names: &[&str]) -> bool
    ensures { result ≡ list_all has_last (map (λ n. n.now) names.now) }
{
    each_has_last(names)
}

fn lasts_of<'a>(alloc: Global, names: &[&'a str]) -> Result<Vec<&'a str>, NoMemory>
    ensures { IfOk result (λ lasts. map (λ last. last.now) lasts.items ≡ map last_of (map (λ n. n.now) names.now)) }
{
    let mut lasts = Vec::new(alloc);
    for name in names {
        lasts.push(last_of(*name))?;
    }
    Ok(lasts)
}

fn is_among(text: &str, texts: &[&str]) -> bool
    ensures { result ≡ list_any (λ t. bytes_eq t.now text.now) texts.now }
{
    texts.iter().any(|t| *t == text)
}

fn are_distinct(texts: &[&str]) -> bool
    ensures { result ≡ are_distinct (map (λ t. t.now) texts.now) }
{
    let mut left = texts;
    while let [text, behind @ ..] = left {
        if is_among(text, behind) {
            return false;
        }
        left = behind;
    }
    true
}

// None of these lies in the folder.
fn are_outside(alloc: Global, folder: &str, names: &[&str]) -> Result<bool, NoMemory>
    ensures { IfOk result (λ r. r ≡ list_all (λ n. not (is_folder_of folder.now n)) (map (λ n. n.now) names.now)) }
{
    for name in names {
        if is_folder_of(alloc, folder, name)? {
            return Ok(false);
        }
    }
    Ok(true)
}

/// Whether each of these has a last part, no two have the same, and none of them lies in the folder. Takes memory.
pub fn are_apart(alloc: Global, folder: &str, names: &[&str]) -> Result<bool, NoMemory>
    ensures { IfOk result (λ r. r ≡ are_apart folder.now (map (λ n. n.now) names.now)) }
{
    if !have_lasts(names) {
        return Ok(false);
    }
    let lasts = lasts_of(alloc, names)?;
    if !are_distinct(&lasts) {
        return Ok(false);
    }
    are_outside(alloc, folder, names)
}

/// The name of the file that is made in a folder of one that is read. Takes memory.
pub fn made_name(alloc: Global, folder: &str, input: &str) -> Result<String, NoMemory>
    ensures { IfOk result (λ name. string_bytes name ≡ made_name folder.now input.now) }
{
    let mut name = String::from_str(alloc, folder)?;
    name.push_str("/")?;
    name.push_str(last_of(input))?;
    Ok(name)
}
