//! Sets of names, in the order in which they came.

ghost use Rattle.std.specs.Prelude.{◌≡◌, ◌++◌, ◌∷◌, [], false, option_map, slice_get, OnOk};
ghost use Rattle.std.specs.Prelude.{IfErr};
ghost use Rattle.board.specs.Boards.{place_of_name};
ghost use Rattle.board.specs.Named.{names, is_named};
ghost use Rattle.board.specs.Sites.{out_of_memory};

use crate::fault::BoardFault;
use indexmap::IndexSet;
use std::alloc::Global;

/// The name of an index.
pub(crate) fn name_at(set: &IndexSet<String>, index: usize) -> Option<&str>
    ensures { option_map (λ n. n.now) result ≡ slice_get (names set.now) index }
{
    Some(set.get_index(index)?.as_str())
}

/// The index of a name.
pub(crate) fn place_of(set: &IndexSet<String>, name: &str) -> Option<usize>
    ensures { result ≡ place_of_name name.now (names set.now) }
{
    set.get_index_of(name)
}

/// Whether a name is there.
pub(crate) fn has_name(set: &IndexSet<String>, name: &str) -> bool
    ensures { result ≡ is_named name.now (names set.now) }
{
    set.contains(name)
}

/// Adds a name that isn't there.
pub(crate) fn add_name(
    alloc: Global,
    set: &mut IndexSet<String>,
    name: &str,
) -> Result<(), BoardFault>
    requires { is_named name.now (names set.old) ≡ false }
    ensures ok { OnOk result (names set.new ≡ names set.old ++ name.now ∷ []) }
    ensures err { IfErr result (λ e. e ≡ out_of_memory) }
{
    set.insert_full(String::from_str(alloc, name)?)?;
    Ok(())
}
