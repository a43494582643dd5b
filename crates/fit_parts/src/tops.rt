// The only part that may be a top.
ghost use Rattle.std.specs.Prelude.{◌≡◌, IfOk, filter, map, option_map};
ghost use Rattle.fit_parts.specs.Below.{is_seen, is_used, may_be_top, only_name, only_top};
ghost use Rattle.fit_parts.specs.Parts.{heading_seen};

use crate::parts::Heading;
use indexmap::IndexSet;
use sg_text::NoMemory;
use std::alloc::Global;

fn is_used(name: Option<&[u8]>, used: &IndexSet<&[u8]>) -> bool
    ensures { result ≡ is_used (λ n. is_seen n used.now.keys) (option_map (λ n. n.now) name.entry) }
{
    match name {
        Some(name) => used.contains(name),
        None => false,
    }
}

fn may_be_top(part: &Heading<'_>, used: &IndexSet<&[u8]>) -> bool
    ensures { result ≡ may_be_top (λ n. is_seen n used.now.keys) (heading_seen part.now) }
{
    part.outer && !is_used(part.name, used)
}

fn candidates<'a>(
    alloc: Global,
    read: &[Heading<'a>],
    used: &IndexSet<&[u8]>,
) -> Result<Vec<Heading<'a>>, NoMemory>
    ensures { IfOk result (λ list. map heading_seen list.items ≡ filter (may_be_top (λ n. is_seen n used.now.keys)) (map heading_seen read.now)) }
{
    let mut list = Vec::new(alloc);
    for part in read {
        if may_be_top(part, used) {
            list.push(*part)?;
        }
    }
    Ok(list)
}

fn only_name<'a>(list: &[Heading<'a>]) -> Option<&'a [u8]>
    ensures { option_map (λ n. n.now) result ≡ only_name (map heading_seen list.now) }
{
    match list {
        [part] => part.name,
        _ => None,
    }
}

/// The name of the only part that may be a top, where these names are used.
pub fn only_top<'a>(
    alloc: Global,
    read: &[Heading<'a>],
    used: &IndexSet<&[u8]>,
) -> Result<Option<&'a [u8]>, NoMemory>
    ensures { IfOk result (λ name. option_map (λ n. n.now) name ≡ only_top (λ n. is_seen n used.now.keys) (map heading_seen read.now)) }
{
    let list = candidates(alloc, read, used)?;
    Ok(only_name(&list))
}
