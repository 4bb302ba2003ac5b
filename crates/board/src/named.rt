//! Items in the order of the file, each with a name of its own.

ghost use Rattle.std.specs.Prelude.{◌≡◌, false, OnOk, IfErr};
ghost use Rattle.board.specs.Named.{named_view, names, is_named, with_item, no_named};
ghost use Rattle.board.specs.Sites.{out_of_memory};

use crate::fault::BoardFault;
use crate::names::add_name;
use indexmap::IndexSet;
use std::alloc::Global;

/// Items and their names, in the same order.
#[derive(Drop)]
pub(crate) struct Named<T> {
    pub names: IndexSet<String>,
    pub items: Vec<T>,
}

impl<T> Named<T> {
    pub fn new(alloc: Global) -> Named<T>
        ensures { named_view result ≡ no_named }
    {
        Named {
            names: IndexSet::new(alloc),
            items: Vec::new(alloc),
        }
    }

    /// Adds an item whose name is new.
    pub fn push(&mut self, alloc: Global, name: &str, item: T) -> Result<(), BoardFault>
    where
        T: Drop,
        requires { is_named name.now (names self.old.names) ≡ false }
        ensures ok { OnOk result
            (named_view self.new ≡ with_item name.now item (named_view self.old)) }
        ensures err { IfErr result (λ e. e ≡ out_of_memory) }
    {
        add_name(alloc, &mut self.names, name)?;
        self.items.push(item)?;
        Ok(())
    }
}
