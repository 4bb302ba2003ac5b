//! Reading rails.

ghost use Rattle.std.specs.Prelude.{◌≡◌, [], false, map, OnOk, IfOk, IfErr};
ghost use Rattle.toml.specs.View.{table_view};
ghost use Rattle.board.specs.Sites.{out_of_memory};
ghost use Rattle.board.specs.Reading.{Gives};
ghost use Rattle.board.specs.Named.{named_view, names, is_named, with_item, no_named};
ghost use Rattle.board.specs.Elements.{tables_left, texts_left};
ghost use Rattle.board.specs.Rails.{check_rail_keys, target_at, page_of, page_at, has_page};
ghost use Rattle.board.specs.Rails.{draft_from};
ghost use Rattle.board.specs.Rails.{drafts_of, need_fault, need_of, needs_of, rails_of};
ghost use Rattle.board.specs.DraftViews.{draft_view, drafts_view};

use crate::elements::{Tables, Texts, texts_at};
use crate::fault::{BoardFault, FaultKind};
use crate::fields::{byte_at, number_at, text_at};
use crate::key::Key;
use crate::keys::{Field, Kind, Sort, check_keys};
use crate::named::Named;
use crate::names::place_of;
use crate::rail::Rail;
use crate::site::Place;
use crate::target::Target;
use crate::targets::new_name;
use indexmap::IndexSet;
use std::alloc::Global;
use toml::Table;

const NEEDED: [Field; 4] = [
    (Key::Name, Kind::Name),
    (Key::Target, Kind::One(Sort::Text)),
    (Key::Page, Kind::One(Sort::Integer)),
    (Key::LimitUv, Kind::One(Sort::Integer)),
];

const OPTIONAL: [Field; 1] = [(Key::Needs, Kind::ListOf(Sort::Text))];

/// A rail whose needs aren't judged yet.
#[derive(Clone, Copy)]
pub(crate) struct RailDraft<'a> {
    target: usize,
    page: u8,
    limit_uv: u32,
    needs: Texts<'a>,
}

/// Refuses a table that is no rail.
fn check_rail_keys(place: Place, table: &Table) -> Result<(), BoardFault>
    ensures { Gives (λ u. table_view table.now) result
        (check_rail_keys place (table_view table.now)) }
{
    check_keys(place, &NEEDED, &OPTIONAL, table)
}

/// The index of the target that a rail names.
fn target_at(targets: &IndexSet<String>, table: &Table) -> Option<usize>
    ensures { result ≡ target_at (names targets.now) (table_view table.now) }
{
    place_of(targets, text_at(Key::Target, table)?)
}

/// The page, if the target has it.
fn page_of(table: &Table, target: &Target) -> Option<u8>
    ensures { result ≡ page_of (table_view table.now) target.now }
{
    let page = byte_at(0, 255, Key::Page, table)?;
    if page < target.pages() {
        Some(page)
    } else {
        None
    }
}

fn page_at(targets: &[Target], place: usize, table: &Table) -> Option<u8>
    ensures { result ≡ page_at targets.now place (table_view table.now) }
{
    page_of(table, targets.get(place)?)
}

fn has_page(target: usize, page: u8, drafts: &[RailDraft<'_>]) -> bool
    ensures { result ≡ has_page target page (map draft_view drafts.now) }
{
    drafts
        .iter()
        .any(|draft| draft.target == target && draft.page == page)
}

/// The rail of an index, as its table says, after the rails before it.
#[tactic(auto, unfolding(crate::specs::Rails::draft_from))]
fn draft_from<'a>(
    index: usize,
    targets: &Named<Target>,
    done: &Named<RailDraft<'_>>,
    table: &'a Table,
) -> Result<(&'a str, RailDraft<'a>), BoardFault>
    ensures value { Gives (λ s. (s.0.now, draft_view s.1)) result
        (draft_from index (named_view targets.now) (drafts_view done.now) (table_view table.now)) }
    ensures new { IfOk result (λ s. is_named s.0.now (names done.now.names) ≡ false) }
{
    let place = Place::Rail(index);
    check_rail_keys(place, table)?;
    let name = new_name(place, &done.names, table)?;
    let no_target = FaultKind::BadRail.at_key(place, Key::Target);
    let target = target_at(&targets.names, table).ok_or(no_target)?;
    let no_page = FaultKind::BadRail.at_key(place, Key::Page);
    let page = page_at(targets.items.as_slice(), target, table).ok_or(no_page)?;
    if has_page(target, page, done.items.as_slice()) {
        return Err(no_page);
    }
    let bad_limit = FaultKind::BadRange.at_key(place, Key::LimitUv);
    let limit_uv = number_at(1, u32::MAX, Key::LimitUv, table).ok_or(bad_limit)?;
    Ok((
        name,
        RailDraft {
            target,
            page,
            limit_uv,
            needs: texts_at(Key::Needs, table),
        },
    ))
}

/// Adds a rail whose name is new.
fn push_draft<'a>(
    alloc: Global,
    drafts: &mut Named<RailDraft<'a>>,
    name: &str,
    draft: RailDraft<'a>,
) -> Result<(), BoardFault>
    requires { is_named name.now (names drafts.old.names) ≡ false }
    ensures ok { OnOk result
        (drafts_view drafts.new
        ≡ with_item name.now (draft_view draft.entry) (drafts_view drafts.old)) }
    ensures err { IfErr result (λ e. e ≡ out_of_memory) }
{
    drafts.push(alloc, name, draft)?;
    Ok(())
}

/// The rails of a list, in order.
pub(crate) fn drafts_of<'a>(
    alloc: Global,
    targets: &Named<Target>,
    tables: Tables<'a>,
) -> Result<Named<RailDraft<'a>>, BoardFault>
    ensures { Gives drafts_view result
        (drafts_of (named_view targets.now) no_named (tables_left tables.entry)) }
{
    let mut drafts = Named::new(alloc);
    for table in tables {
        let index = drafts.items.len();
        let (name, draft) = draft_from(index, targets, &drafts, table)?;
        push_draft(alloc, &mut drafts, name, draft)?;
    }
    Ok(drafts)
}

/// A fault of a need of a rail, by its place among these.
fn need_fault(kind: FaultKind, rail: usize, need: usize) -> BoardFault
    ensures { result ≡ need_fault kind rail need }
{
    kind.at_item(Place::Rail(rail), Key::Needs, need)
}

/// The index of the rail that is needed, which isn't the one that needs it.
#[tactic(auto, unfolding(crate::specs::Rails::need_of))]
fn need_of(
    rails: &IndexSet<String>,
    rail: usize,
    need: usize,
    name: &str,
) -> Result<usize, BoardFault>
    ensures { Gives (λ n. n) result (need_of (names rails.now) rail need name.now) }
{
    let unknown = need_fault(FaultKind::UnknownNeed, rail, need);
    let needed = place_of(rails, name).ok_or(unknown)?;
    if needed == rail {
        return Err(need_fault(FaultKind::SelfNeed, rail, need));
    }
    Ok(needed)
}

fn needs_of(
    alloc: Global,
    rails: &IndexSet<String>,
    rail: usize,
    texts: Texts<'_>,
) -> Result<Vec<usize>, BoardFault>
    ensures { Gives (λ v. v.items) result
        (needs_of (names rails.now) rail [] (texts_left texts.entry)) }
{
    let mut needs = Vec::new(alloc);
    for name in texts {
        let needed = need_of(rails, rail, needs.len(), name)?;
        needs.push(needed)?;
    }
    Ok(needs)
}

/// The rails with their needs.
pub(crate) fn rails_of(
    alloc: Global,
    drafts: &Named<RailDraft<'_>>,
) -> Result<Vec<Rail>, BoardFault>
    ensures { Gives (λ v. v.items) result
        (rails_of (names drafts.now.names) [] (map draft_view drafts.now.items.items)) }
{
    let mut rails = Vec::new(alloc);
    for draft in &drafts.items {
        let needs = needs_of(alloc, &drafts.names, rails.len(), draft.needs)?;
        rails.push(Rail {
            target: draft.target,
            page: draft.page,
            limit_uv: draft.limit_uv,
            needs,
        })?;
    }
    Ok(rails)
}
