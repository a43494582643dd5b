// What stands at the place of an instance.
ghost use Rattle.std.specs.Prelude.{◌≡◌, ◌≤◌, ◌<◌, ◌+◌, ◌-◌, ℕ, List, Some, drop, length, option_map, slice_get, take};
ghost use Rattle.elab_nets.specs.Rows.{part_of};
ghost use Rattle.elab_elements.specs.Words.{primitive_in, primitive_at};

use elab_hierarchy::Placed;
use elab_nets::{Library, Ready, Rows};
use sg_circuit::NetId;

/// The instance of a number.
pub fn placed_at<'t, 'a>(instances: &[Placed<'t, 'a>], number: u32) -> Placed<'t, 'a>
    requires { number < length instances.now }
    ensures { slice_get instances.now number ≡ Some result }
{
    instances[number as usize]
}

fn primitive_in(part: &Option<Ready>) -> Option<u32>
    ensures { result ≡ primitive_in part.now }
{
    match part {
        Some(Ready::Primitive(udp)) => Some(*udp),
        Some(Ready::Module(_)) | None => None,
    }
}

/// The place of the table of the primitive that stands ready at a place of the definitions, if it is one.
pub fn primitive_at(library: &Library, definition: usize) -> Option<u32>
    ensures { result ≡ primitive_at (slice_get library.now.parts.items definition) }
{
    primitive_in(library.parts.get(definition)?)
}

/// The place of the delays of a member of the module at a place of the definitions.
pub fn delays_at(library: &Library, definition: usize, member: usize) -> u32
    requires { (list : List ℕ) × ((option_map (λ d. d.items) (slice_get library.now.delays.items definition) ≡ Some list) × (member < length list)) }
    ensures { (list : List ℕ) → option_map (λ d. d.items) (slice_get library.now.delays.items definition) ≡ Some list → slice_get list member ≡ Some result }
{
    library.delays[definition][member]
}

/// The nets of the bits of an instance.
pub fn inner_row(rows: &Rows, number: usize, width: usize) -> &[NetId]
    requires { (start : ℕ) × ((slice_get rows.now.starts.items number ≡ Some start) × (start + width ≤ length rows.now.inner.items)) }
    ensures { (start : ℕ) → slice_get rows.now.starts.items number ≡ Some start → result.now ≡ part_of rows.now.inner.items start width }
{
    let start = rows.starts[number];
    &rows.inner[start..start + width]
}

/// What lies outside the bits of an instance.
pub fn outer_row(rows: &Rows, number: usize, width: usize) -> &[Option<NetId>]
    requires { (start : ℕ) × ((slice_get rows.now.outer_starts.items number ≡ Some start) × (start + width ≤ length rows.now.outer.items)) }
    ensures { (start : ℕ) → slice_get rows.now.outer_starts.items number ≡ Some start → result.now ≡ part_of rows.now.outer.items start width }
{
    let start = rows.outer_starts[number];
    &rows.outer[start..start + width]
}

/// The first net of a member that no variable names, or the next number.
pub fn first_net(rows: &Rows, number: usize, member: usize) -> NetId
    requires { (start : ℕ) × ((slice_get rows.now.member_starts.items number ≡ Some start) × (start + member < length rows.now.firsts.items)) }
    ensures { (start : ℕ) → slice_get rows.now.member_starts.items number ≡ Some start → slice_get rows.now.firsts.items (start + member) ≡ Some result }
{
    let start = rows.member_starts[number];
    rows.firsts[start + member]
}

/// The inner nets of an instance's output bits to which specify paths lead.
pub fn end_row(rows: &Rows, number: usize, count: usize) -> &[NetId]
    requires { (start : ℕ) × ((slice_get rows.now.end_starts.items number ≡ Some start) × (start + count ≤ length rows.now.ends.items)) }
    ensures { (start : ℕ) → slice_get rows.now.end_starts.items number ≡ Some start → result.now ≡ part_of rows.now.ends.items start count }
{
    let start = rows.end_starts[number];
    &rows.ends[start..start + count]
}

/// What stands from one place of a list to before another.
pub fn part_between<'n, T>(list: &'n [T], start: usize, end: usize) -> &'n [T]
    requires start { start ≤ end }
    requires end { end ≤ length list.now }
    ensures { result.now ≡ take (end - start) (drop start list.now) }
{
    &list[start..end]
}
