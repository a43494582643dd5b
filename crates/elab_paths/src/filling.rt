// The paths of uses, given to the Paths among elements.
ghost use Rattle.std.specs.Prelude.{◌≡◌, ◌≤◌, length};
ghost use Rattle.elab_paths.specs.Filling.{is_path, paths_among, filled};

use crate::uses::PathUse;
use sg_circuit::{Element, ElementKind};

fn is_path(kind: &ElementKind) -> bool
    ensures { result ≡ is_path kind.now }
{
    matches!(kind, ElementKind::Path { .. })
}

/// Gives each Path the paths and the style of the next use.
pub fn fill_paths(uses: &[PathUse], elements: &mut [Element])
    requires { paths_among elements.old ≤ length uses.now }
    ensures { elements.new ≡ filled uses.now elements.old }
{
    let mut next: usize = 0;
    for element in elements.iter_mut() {
        if is_path(&element.kind) {
            let path_use = uses[next];
            element.kind = ElementKind::Path {
                paths: path_use.paths,
                style: path_use.style,
            };
            next += 1;
        }
    }
}
