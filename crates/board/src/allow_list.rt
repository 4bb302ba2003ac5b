//! The entries of a target, each found by its form and command.

ghost use Rattle.std.specs.Prelude.{◌≡◌, ◌==◌, ◌++◌, ◌∷◌, [], false, option_map, slice_get, IfOk};
ghost use Rattle.std.specs.Prelude.{IfErr, length};
ghost use Rattle.pmbus_table.specs.Forms.{form_number};
ghost use Rattle.board.specs.Sites.{out_of_memory};
ghost use Rattle.board.specs.Boards.{entry_of, has_entry};
ghost use Rattle.board.specs.EntryKeys.{key_for};

use crate::entry::Allow;
use crate::fault::BoardFault;
use indexmap::IndexSet;
use smbus::{Form, carries_code};
use std::alloc::Global;
use std::hash::{Hash, Hasher};
use std::marker::Model;

/// What an entry is found by. The code is 0 where the form carries none.
#[derive(Clone, Copy)]
struct EntryKey {
    form: Form,
    code: u8,
}

fn is_same_form(first: Form, second: Form) -> bool
    ensures { result ≡ (form_number first == form_number second) }
{
    first == second
}

impl PartialEq for EntryKey {
    ghost use Rattle.std.specs.Prelude.{◌==◌, ◌&&◌};
    ghost use Rattle.pmbus_table.specs.Forms.{form_number};
    ghost use Rattle.board.specs.EntryLaws.{partly_equal_keys};

    ghost eq = { λ a b. form_number a.form == form_number b.form && a.code == b.code };

    ghost laws = { partly_equal_keys };

    fn eq(&self, other: &EntryKey) -> bool {
        is_same_form(self.form, other.form) && self.code == other.code
    }
}

impl Eq for EntryKey {
    ghost use Rattle.board.specs.EntryLaws.{equal_keys};

    ghost laws = { equal_keys };
}

/// By the code alone, since few forms have the same code.
impl Hash for EntryKey {
    ghost use Rattle.std.proofs.Common.{rules};
    ghost use Rattle.std.specs.Cmp.Rules.{hashing};
    ghost use Rattle.std.specs.Hash as fed;

    ghost hash_input = { λ a. fed.u8 a.code };

    ghost respects_eq = { Prim.search (hashing, rules) };

    fn hash<H: Hasher>(&self, state: &mut H) {
        self.code.hash(state);
    }
}

impl EntryKey {
    fn new(form: Form, code: u8) -> EntryKey
        ensures { result ≡ key_for form code }
    {
        EntryKey {
            form,
            code: if carries_code(form) { code } else { 0 },
        }
    }
}

/// The entries in the order of the file, no two with one form and one code.
#[derive(Drop)]
pub(crate) struct AllowList {
    entries: Vec<Allow>,
    keys: IndexSet<EntryKey>,
}

impl Model for AllowList {
    ghost use Rattle.std.specs.Prelude.{List};
    ghost use Rattle.board.specs.Boards.{Allow};

    ghost Value = { List Allow };

    ghost use Rattle.board.specs.EntryKeys.{allow_list_view, IsFound};

    ghost view = { allow_list_view };

    ghost invariant = { IsFound };
}

impl AllowList {
    pub fn new(alloc: Global) -> AllowList
        ensures { result ≡ [] }
    {
        AllowList {
            entries: Vec::new(alloc),
            keys: IndexSet::new(alloc),
        }
    }

    /// The entries in order.
    pub fn entries(&self) -> &[Allow]
        ensures { result.now ≡ self.now }
    {
        self.entries.as_slice()
    }

    pub fn len(&self) -> usize
        ensures { result ≡ length self.now }
    {
        self.entries.len()
    }

    /// The entry of a form and a code.
    pub fn get(&self, form: Form, code: u8) -> Option<&Allow>
        ensures { option_map (λ a. a.now) result ≡ entry_of form code self.now }
    {
        let place = self.keys.get_index_of(&EntryKey::new(form, code))?;
        entry_at(self.entries.as_slice(), place)
    }

    /// Whether there is an entry of a form and a code.
    pub fn has(&self, form: Form, code: u8) -> bool
        ensures { result ≡ has_entry form code self.now }
    {
        self.keys.contains(&EntryKey::new(form, code))
    }

    /// The list and one entry more, whose form and code no other one has.
    pub fn with(self, entry: Allow) -> Result<AllowList, BoardFault>
        requires { has_entry entry.form entry.code self ≡ false }
        ensures ok { IfOk result (λ list. list ≡ self ++ entry ∷ []) }
        ensures err { IfErr result (λ e. e ≡ out_of_memory) }
    {
        let AllowList {
            mut entries,
            mut keys,
        } = self;
        keys.insert_full(EntryKey::new(entry.form(), entry.code()))?;
        entries.push(entry)?;
        Ok(AllowList { entries, keys })
    }
}

fn entry_at(entries: &[Allow], place: usize) -> Option<&Allow>
    ensures { option_map (λ a. a.now) result ≡ slice_get entries.now place }
{
    entries.get(place)
}
