//! Links between the indexes that share a hash. Element i of the array has the hash of index i, and the next and the
//! previous index.
//!
//! If index i isn't in the table, element i has i itself as the previous index. So no flag is needed, and a link has
//! 16 bytes.
ghost use Rattle.std.specs.Prelude.{◌≡◌, ◌≢◌, ◌↔◌, ◌≤◌, ◌<◌, ◌+◌, ◌==◌, ℕ, max, if◌then◌else◌, vec_len, vec_capacity, length, Some, None, IsSome, IsTrue};
ghost use Rattle.std.specs.FinMap as finite;
ghost use Rattle.iddqd.specs.Store.{sentinel};
ghost use Rattle.iddqd_groups.specs.Links.{filed_by, next_of, prev_of};

use iddqd::item_index::ItemIndex;

/// The hash of an index, and the next and the previous index under that hash: `SENTINEL` if there is none.
#[derive(Clone, Copy)]
pub struct Link {
    pub hash: u64,
    pub next: ItemIndex,
    pub prev: ItemIndex,
}

/// The place of an index in an array of links.
pub fn place_of(ix: ItemIndex) -> usize
    ensures { result ≡ ix }
{
    ix.as_u32() as usize
}

/// Whether the table has the index `ix`, which has a link in the array.
pub fn is_present(links: &[Link], ix: ItemIndex) -> bool
    requires { ix < length links.now }
    ensures { IsTrue result ↔ IsSome (finite.get (filed_by links.now) ix) }
{
    links[place_of(ix)].prev != ix
}

/// Puts an index that isn't in the table into it, by writing its link. It takes no memory.
pub fn put(links: &mut Vec<Link>, ix: ItemIndex, link: Link)
    requires in_turn { ix ≤ vec_len links.old }
    requires roomy { ix < vec_capacity links.old }
    requires absent { finite.get (filed_by links.old.items) ix ≡ None }
    requires marks_present { link.prev ≢ ix }
    ensures filed { filed_by links.new.items ≡ finite.insert (filed_by links.old.items) ix link.hash }
    ensures next { (j : ℕ) → next_of links.new.items j ≡ (if j == ix then link.next else next_of links.old.items j) }
    ensures prev { (j : ℕ) → prev_of links.new.items j ≡ (if j == ix then link.prev else prev_of links.old.items j) }
    ensures len { vec_len links.new ≡ max (vec_len links.old) (ix + 1) }
    ensures capacity { vec_capacity links.new ≡ vec_capacity links.old }
{
    let place = place_of(ix);
    if place == links.len() {
        links.push_reserved(link);
    } else {
        links[place] = link;
    }
}

/// Sets the next index of an index.
pub fn set_next(links: &mut Vec<Link>, ix: ItemIndex, next: ItemIndex)
    requires { ix < vec_len links.old }
    ensures filed { filed_by links.new.items ≡ filed_by links.old.items }
    ensures next { (j : ℕ) → next_of links.new.items j ≡ (if j == ix then next else next_of links.old.items j) }
    ensures prev { (j : ℕ) → prev_of links.new.items j ≡ prev_of links.old.items j }
    ensures len { vec_len links.new ≡ vec_len links.old }
    ensures capacity { vec_capacity links.new ≡ vec_capacity links.old }
{
    links[place_of(ix)].next = next;
}

/// Sets the previous index of an index that is in the table.
pub fn set_prev(links: &mut Vec<Link>, ix: ItemIndex, prev: ItemIndex)
    requires present { IsSome (finite.get (filed_by links.old.items) ix) }
    requires other { prev ≢ ix }
    ensures filed { filed_by links.new.items ≡ filed_by links.old.items }
    ensures next { (j : ℕ) → next_of links.new.items j ≡ next_of links.old.items j }
    ensures prev { (j : ℕ) → prev_of links.new.items j ≡ (if j == ix then prev else prev_of links.old.items j) }
    ensures len { vec_len links.new ≡ vec_len links.old }
    ensures capacity { vec_capacity links.new ≡ vec_capacity links.old }
{
    links[place_of(ix)].prev = prev;
}

/// Sets the next index of `ix`, unless `ix` is `SENTINEL`.
pub fn set_next_if_any(links: &mut Vec<Link>, ix: ItemIndex, next: ItemIndex)
    requires { ix ≢ sentinel → ix < vec_len links.old }
    ensures filed { filed_by links.new.items ≡ filed_by links.old.items }
    ensures next { (j : ℕ) → j ≢ sentinel
        → next_of links.new.items j ≡ (if j == ix then next else next_of links.old.items j) }
    ensures prev { (j : ℕ) → prev_of links.new.items j ≡ prev_of links.old.items j }
    ensures len { vec_len links.new ≡ vec_len links.old }
    ensures capacity { vec_capacity links.new ≡ vec_capacity links.old }
{
    if ix != ItemIndex::SENTINEL {
        set_next(links, ix, next);
    }
}

/// Sets the previous index of `ix`, unless `ix` is `SENTINEL`.
pub fn set_prev_if_any(links: &mut Vec<Link>, ix: ItemIndex, prev: ItemIndex)
    requires present { ix ≢ sentinel → IsSome (finite.get (filed_by links.old.items) ix) }
    requires other { ix ≢ sentinel → prev ≢ ix }
    ensures filed { filed_by links.new.items ≡ filed_by links.old.items }
    ensures next { (j : ℕ) → next_of links.new.items j ≡ next_of links.old.items j }
    ensures prev { (j : ℕ) → j ≢ sentinel
        → prev_of links.new.items j ≡ (if j == ix then prev else prev_of links.old.items j) }
    ensures len { vec_len links.new ≡ vec_len links.old }
    ensures capacity { vec_capacity links.new ≡ vec_capacity links.old }
{
    if ix != ItemIndex::SENTINEL {
        set_prev(links, ix, prev);
    }
}

/// Returns the link of an index, and writes one in its place that marks the index as absent.
pub fn take(links: &mut Vec<Link>, ix: ItemIndex) -> Link
    requires { IsSome (finite.get (filed_by links.old.items) ix) }
    ensures hash { finite.get (filed_by links.old.items) ix ≡ Some result.hash }
    ensures next_was { result.next ≡ next_of links.old.items ix }
    ensures prev_was { result.prev ≡ prev_of links.old.items ix }
    ensures filed { filed_by links.new.items ≡ finite.remove (filed_by links.old.items) ix }
    ensures next { (j : ℕ) → j ≢ ix → next_of links.new.items j ≡ next_of links.old.items j }
    ensures prev { (j : ℕ) → j ≢ ix → prev_of links.new.items j ≡ prev_of links.old.items j }
    ensures len { vec_len links.new ≡ vec_len links.old }
    ensures capacity { vec_capacity links.new ≡ vec_capacity links.old }
{
    let place = place_of(ix);
    let link = links[place];
    links[place] = Link {
        hash: 0,
        next: ItemIndex::SENTINEL,
        prev: ix,
    };
    link
}
