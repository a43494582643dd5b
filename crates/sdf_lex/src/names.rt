// What words say to a grammar.
ghost use Rattle.std.specs.Prelude.{◌≡◌, ◌≤◌, ◌<◌, ◌+◌, ◌++◌, ◌∷◌, [], length, map, take, drop, IfOk, IfSome, IfNone};
ghost use Rattle.std.specs.List.{list_all};
ghost use Rattle.sdf_lex.specs.Words.{written, byte_of, spelled};
ghost use Rattle.sdf_lex.specs.Names.{letters_of, called, is_name_letter, is_instance_letter, is_name, is_instance_name, is_divider, path_parts};
ghost use Rattle.sdf_lex.specs.NameBridge.{IsSplit, PartIs};

use crate::letters::Letter;
use sg_text::{NoMemory, is_name_byte};
use std::alloc::Global;

// The first letter, and the bytes behind it.
#[tactic(auto, using(crate::proofs::NameLaws::split_last, crate::proofs::NameLaws::split_escaped, crate::proofs::NameLaws::split_plain))]
fn split_letter(bytes: &[u8]) -> Option<(Letter, &[u8])>
    ensures some { IfSome result (λ p. IsSplit bytes.now p.0 p.1.now) }
    ensures none { IfNone result (bytes.now ≡ []) }
{
    let [b, tail @ ..] = bytes else {
        return None;
    };
    let [c, rest @ ..] = tail else {
        return Some((Letter::Plain(*b), tail));
    };
    if *b == b'\\' {
        return Some((Letter::Escaped(*c), rest));
    }
    Some((Letter::Plain(*b), tail))
}

fn is_name_letter(letter: Letter) -> bool
    ensures { result ≡ is_name_letter letter }
{
    match letter {
        Letter::Plain(b) => is_name_byte(b),
        Letter::Escaped(_) => true,
    }
}

fn is_instance_letter(letter: Letter) -> bool
    ensures { result ≡ is_instance_letter letter }
{
    match letter {
        Letter::Plain(b) => is_name_byte(b) || b == b'[' || b == b']',
        Letter::Escaped(_) => true,
    }
}

fn are_name_letters(bytes: &[u8]) -> bool
    ensures { result ≡ list_all is_name_letter (letters_of bytes.now) }
{
    let mut left = bytes;
    while let Some((letter, rest)) = split_letter(left) {
        if !is_name_letter(letter) {
            return false;
        }
        left = rest;
    }
    true
}

fn are_instance_letters(bytes: &[u8]) -> bool
    ensures { result ≡ list_all is_instance_letter (letters_of bytes.now) }
{
    let mut left = bytes;
    while let Some((letter, rest)) = split_letter(left) {
        if !is_instance_letter(letter) {
            return false;
        }
        left = rest;
    }
    true
}

/// Whether a word is a name: letters, digits, `_`, `$`, and bytes behind backslashes.
pub fn is_name(word: &[u8]) -> bool
    ensures { result ≡ is_name word.now }
{
    match word {
        [] => false,
        _ => are_name_letters(word),
    }
}

/// Whether a word is the name of an instance, which may have plain brackets too.
pub fn is_instance_name(word: &[u8]) -> bool
    ensures { result ≡ is_instance_name word.now }
{
    match word {
        [] => false,
        _ => are_instance_letters(word),
    }
}

/// What a written name is called: without its backslashes. Takes memory.
pub fn called(alloc: Global, name: &[u8]) -> Result<Vec<u8>, NoMemory>
    ensures { IfOk result (λ bytes. bytes.items ≡ called name.now) }
{
    let mut bytes = Vec::new(alloc);
    let mut left = name;
    while let Some((letter, rest)) = split_letter(left) {
        bytes.push(letter.byte())?;
        left = rest;
    }
    Ok(bytes)
}

fn is_divider(divider: u8, letter: Letter) -> bool
    ensures { result ≡ is_divider divider letter }
{
    match letter {
        Letter::Plain(b) => b == divider,
        Letter::Escaped(_) => false,
    }
}

/// The first part of a path, and what is behind the divider that ends it, if one does.
pub fn first_part(divider: u8, path: &[u8]) -> (&[u8], Option<&[u8]>)
    ensures { PartIs divider path.now result.0.now result.1 }
{
    let mut at = 0;
    let mut left = path;
    while let Some((letter, rest)) = split_letter(left) {
        if is_divider(divider, letter) {
            return (&path[..at], Some(rest));
        }
        at += letter.size();
        left = rest;
    }
    (path, None)
}
