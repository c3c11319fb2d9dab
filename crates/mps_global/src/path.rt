//! What stands on the path to a node, for the variables below it.
ghost use Rattle.std.specs.Prelude.{◌≡◌};
ghost use Rattle.mps_global.specs.Path.{edges, is_bound, is_unguarded};

use mps_base::VarName;

/// The path to a node of a global or a local type, the nearest first: the `rec`s on it, each with
/// its variable, and the acts.
#[derive(Clone, Copy)]
pub enum Above<'a> {
    Root,
    Loop(&'a VarName, &'a Above<'a>),
    Act(&'a Above<'a>),
}

/// Whether a `rec` of the variable stands on the path. O(path); the recursion is at most 64 deep in a tree within the
/// limits.
pub fn is_bound(name: &VarName, above: &Above<'_>) -> bool
    ensures { result ≡ is_bound name.now (edges above.now) }
{
    match above {
        Above::Root => false,
        Above::Loop(bound, above) => name.is(bound) || is_bound(name, above),
        Above::Act(above) => is_bound(name, above),
    }
}

/// Whether a `rec` of the variable stands on the path with no message or choice below it: then the recursion comes back
/// to itself with nothing done in between.
pub fn is_unguarded(name: &VarName, above: &Above<'_>) -> bool
    ensures { result ≡ is_unguarded name.now (edges above.now) }
{
    match above {
        Above::Root | Above::Act(_) => false,
        Above::Loop(bound, above) => name.is(bound) || is_unguarded(name, above),
    }
}
