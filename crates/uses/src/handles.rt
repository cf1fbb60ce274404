//! Accounts by their handles, whatever the case of their ASCII letters: a key with an equality of its own.
//!
//! `Handle` is a `HashKey` and an `OrdKey` that its user wrote. Contracts read it as the handle in small letters. A
//! look-up folds no text: it hashes and compares letter by letter.
ghost use Rattle.std.specs.Prelude.{◌≡◌, IfErr, OnOk, OnErr, option_copied};
ghost use Rattle.std.specs.Cmp.Lexicographic.{bytes_decides, nat_list_eq_equiv, slice_cmp};
ghost use Rattle.std.specs.List.{fold};
ghost use Rattle.std.specs.Ordering.{nat_cmp};
ghost use Rattle.std.specs.Str.{bytes_eq, str_eq_ignore_ascii_case, str_to_ascii_lowercase};
ghost use Rattle.std.specs.String.{string_bytes};
ghost use Rattle.iddqd_maps.specs.Map.{FindsItem};
ghost use Rattle.iddqd_maps.specs.Scan.{HasNoHit};
ghost use Rattle.iddqd_maps.specs.Store.{inserted};
ghost use Rattle.uses.specs.Exchanges.{IsWhyNotAdded};
ghost use Rattle.uses.specs.Handles.{has_handle, is_spelled, letters, same_handle, writes};

use iddqd_maps::hash_key::HashKey;
use iddqd_maps::id_hash_map::HashMapBy;
use iddqd_maps::id_ord_map::OrdMapBy;
use iddqd_maps::item_hash_query::ItemHashQuery;
use iddqd_maps::item_index::ItemIndex;
use iddqd_maps::item_order_query::{ItemOrdQuery, ItemRangeQuery};
use iddqd_maps::order_key::OrdKey;
use iddqd_maps::refusal::InsertRefusal;
use std::alloc::{AllocError, Global};
use std::cmp::Ordering;
use std::hash::Hasher;

/// An account. No two have handles that differ in case alone.
#[derive(Drop)]
pub struct Account {
    pub handle: String,
    pub posts: u32,
}

// Feeds a text to a hasher in small letters, with a mark at its end.
fn feed<H: Hasher>(text: &str, state: &mut H)
    ensures { state.new ≡ fold H.write state.old (writes (str_to_ascii_lowercase text.now)) }
{
    let mut left = text.as_bytes();
    'feeding: while let Some((byte, rest)) = left.split_first() {
        state.write_u8(byte.to_ascii_lowercase());
        left = rest;
    }
    state.write_u8(END);
}

// No byte of a text.
const END: u8 = 255;

/// Names the handle, whatever the case of its letters.
pub enum Handle {}

impl HashKey<Account> for Handle {
    ghost use Rattle.std.specs.Prelude.{ℕ, List};
    ghost use Rattle.std.proofs.Common.{ap};

    ghost Key = { List ℕ };

    ghost key_of = { letters };

    ghost eq = { bytes_eq };

    ghost hash_input = { writes };

    ghost laws = { nat_list_eq_equiv };

    ghost respects_eq = { λ x y same. ap writes ((bytes_decides x y).0 same) };

    fn hash<H: Hasher>(account: &Account, state: &mut H) {
        feed(account.handle.as_str(), state);
    }

    fn is_same(account: &Account, other: &Account) -> bool {
        let handle = account.handle.as_str();
        handle.eq_ignore_ascii_case(other.handle.as_str())
    }
}

// How two texts compare letter by letter, whatever their case.
fn compare_letters(one: &str, other: &str) -> Ordering
    ensures { result ≡ slice_cmp nat_cmp (str_to_ascii_lowercase one.now) (str_to_ascii_lowercase other.now) }
{
    let (mut left, mut right) = (one.as_bytes(), other.as_bytes());
    'comparing: while let Some((x, left_rest)) = left.split_first() {
        let Some((y, right_rest)) = right.split_first() else {
            return Ordering::Greater;
        };
        match x.to_ascii_lowercase().cmp(&y.to_ascii_lowercase()) {
            Ordering::Equal => {
                left = left_rest;
                right = right_rest;
            }
            unequal => return unequal,
        }
    }
    if right.is_empty() {
        Ordering::Equal
    } else {
        Ordering::Less
    }
}

impl OrdKey<Account> for Handle {
    ghost use Rattle.std.specs.Prelude.{ℕ, List};
    ghost use Rattle.std.specs.Cmp.Lexicographic.{nat_list_cmp_total};

    ghost Key = { List ℕ };

    ghost key_of = { letters };

    ghost cmp = { slice_cmp nat_cmp };

    ghost total = { nat_list_cmp_total };

    fn compare(account: &Account, other: &Account) -> Ordering {
        compare_letters(account.handle.as_str(), other.handle.as_str())
    }
}

/// A handle as somebody spelled it.
#[derive(Clone, Copy, Debug)]
pub struct Spelled<'a>(pub &'a str);

impl<'a> ItemHashQuery<Account, Handle> for Spelled<'a> {
    ghost use Rattle.std.proofs.Common.{ap};

    ghost stands_for_item = { λ q account. str_eq_ignore_ascii_case q.0.now (string_bytes account.handle) };

    ghost key_hash_input = { λ q. writes (str_to_ascii_lowercase q.0.now) };

    ghost same_item_hash = { λ q account same. ap writes
        ((bytes_decides (str_to_ascii_lowercase q.0.now) (letters account)).0 same) };

    ghost same_item_key = { λ q x y. nat_list_eq_equiv.congr (str_to_ascii_lowercase q.0.now) (letters x) (letters y) };

    fn stands_for_item(&self, account: &Account) -> bool {
        self.0.eq_ignore_ascii_case(account.handle.as_str())
    }

    fn hash_as_key<H: Hasher>(&self, state: &mut H) {
        feed(self.0, state);
    }
}

impl<'a> ItemRangeQuery<Account, Handle> for Spelled<'a> {
    ghost use Rattle.std.specs.Cmp.Lexicographic.{nat_list_cmp_total};
    ghost use Rattle.iddqd_maps.specs.OrderedQuery.{FitsOrder-query, IsQuery-key};

    ghost compare_item = { λ q account. slice_cmp nat_cmp (str_to_ascii_lowercase q.0.now) (letters account) };

    ghost fits = { λ q. FitsOrder-query letters (slice_cmp nat_cmp)
        (slice_cmp nat_cmp (str_to_ascii_lowercase q.0.now))
        (IsQuery-key (slice_cmp nat_cmp) nat_list_cmp_total (str_to_ascii_lowercase q.0.now)) };

    fn compare_item(&self, account: &Account) -> Ordering {
        compare_letters(self.0, account.handle.as_str())
    }
}

impl<'a> ItemOrdQuery<Account, Handle> for Spelled<'a> {
    ghost use Rattle.std.specs.Cmp.Lexicographic.{nat_list_cmp_total};
    ghost use Rattle.iddqd_maps.specs.OrderedQuery.{IsOneKey-query, IsQuery-key};

    ghost one_key = { λ q. IsOneKey-query letters (slice_cmp nat_cmp)
        (slice_cmp nat_cmp (str_to_ascii_lowercase q.0.now))
        (IsQuery-key (slice_cmp nat_cmp) nat_list_cmp_total (str_to_ascii_lowercase q.0.now)) };
}

/// Accounts by their handles, whatever the case of their letters.
pub type Accounts = HashMapBy<Account, Handle>;

/// Adds an account, unless one has its handle in any case.
pub fn open(
    accounts: &mut Accounts,
    account: Account,
) -> Result<ItemIndex, InsertRefusal<Account, ItemIndex>>
    ensures unlike { OnOk result (HasNoHit accounts.old.store (same_handle account)) }
    ensures stored { OnOk result (accounts.new.store ≡ inserted accounts.old.store account) }
    ensures refused { IfErr result (IsWhyNotAdded same_handle account accounts.old) }
    ensures unchanged { OnErr result (accounts.new.store ≡ accounts.old.store) }
{
    accounts.insert_unique(account)
}

/// The account with this handle, in any case.
pub fn with_handle<'a>(accounts: &'a Accounts, handle: &str) -> Option<&'a Account>
    ensures { FindsItem accounts.now.store (has_handle handle.now) (option_copied result) }
{
    accounts.get(Spelled(handle))
}

/// Accounts in the order of their handles, whatever the case of their letters.
pub type Directory = OrdMapBy<Account, Handle>;

/// The account with this handle, in any case.
pub fn listed<'a>(directory: &'a Directory, handle: &str) -> Option<&'a Account>
    ensures { FindsItem directory.now.store (is_spelled handle.now) (option_copied result) }
{
    directory.get(Spelled(handle))
}

fn opened(alloc: Global, accounts: &mut Accounts, handle: &str) -> Result<bool, AllocError> {
    let handle = String::from_str(alloc, handle)?;
    Ok(open(accounts, Account { handle, posts: 0 }).is_ok())
}

fn script(alloc: Global, accounts: &mut Accounts) -> Result<String, AllocError> {
    let first = opened(alloc, accounts, "Ada")?;
    let second = opened(alloc, accounts, "aDA")?;
    let found = (
        with_handle(accounts, "ADA").is_some(),
        with_handle(accounts, "ADAM").is_some(),
    );
    let mut directory = Directory::new(alloc);
    let handle = String::from_str(alloc, "Bo")?;
    let added = directory
        .insert_unique(Account { handle, posts: 1 })
        .is_ok();
    let listed = (
        listed(&directory, "bO").is_some(),
        listed(&directory, "b").is_some(),
    );
    format!(in alloc; "handles: {first}, {second}, {found:?}, {added}, {listed:?}")
}

/// What the calls answer.
pub fn line(alloc: Global) -> Result<String, AllocError> {
    script(alloc, &mut Accounts::new(alloc))
}
