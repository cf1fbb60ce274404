//! Items whose key is a text of their own. They are looked up by a borrowed text, so none is copied for it.
ghost use Rattle.std.specs.Prelude.{◌≡◌, ◌≤◌, MatchOption, IfNone, IfOk, IfErr, OnOk, OnErr, filter};
ghost use Rattle.std.specs.String.{string_bytes};
ghost use Rattle.iddqd_maps.specs.LiveItems.{live_pairs};
ghost use Rattle.iddqd_maps.specs.Map.{Removes, RemovesFull};
ghost use Rattle.iddqd_maps.specs.Scan.{HasNoHit};
ghost use Rattle.iddqd_maps.specs.Store.{inserted, live_count};
ghost use Rattle.uses.specs.Exchanges.{Exchanges};
ghost use Rattle.uses.specs.Updates.{FindsField};
ghost use Rattle.uses.specs.Users.{has_logged_in, is_named, same_name, IsWhyNotRenamed, IsWhyNotSignedUp, LogsIn};
ghost use Rattle.uses.specs.declared.users.User.{User};

use iddqd_maps::id_hash_map::{IdHashItem, IdHashMap};
use iddqd_maps::item_index::ItemIndex;
use iddqd_maps::refusal::{InsertRefusal, ReplaceRefusal};
use std::alloc::{AllocError, Global};

/// A user. No two have the same name.
#[derive(Drop)]
pub struct User {
    pub name: String,
    pub logins: u32,
}

impl IdHashItem for User {
    type Key = String;

    ghost key_of = { λ user. user.name };

    fn key(&self) -> &String {
        &self.name
    }
}

/// Why somebody wasn't signed up.
#[derive(Clone, Copy, Debug)]
pub enum SignUpError {
    /// A user has the name.
    Taken,
    /// There are as many users as the limit allows.
    Full,
    /// There was no room for another user, and memory ran out.
    Memory,
}

/// Why a user keeps the name.
#[derive(Clone, Copy, Debug)]
pub enum RenameError {
    /// There is no such user.
    Missing,
    /// Another user has the new name.
    Taken,
}

/// How often the user with this name logged in; none exactly where there is no such user.
pub fn logins(users: &IdHashMap<User>, name: &str) -> Option<u32>
    ensures { FindsField users.now.store (is_named name.now) (λ user. user.logins) result }
{
    match users.get(name) {
        Some(user) => Some(user.logins),
        None => None,
    }
}

/// Adds a user who never logged in, or says why not.
pub fn sign_up(users: &mut IdHashMap<User>, name: String) -> Result<(), SignUpError>
    ensures new_name { OnOk result (HasNoHit users.old.store (is_named (string_bytes name))) }
    ensures added { OnOk result
        (users.new.store ≡ inserted users.old.store (record { name = name; logins = 0 })) }
    ensures refused { IfErr result (IsWhyNotSignedUp (string_bytes name) users.old) }
    ensures unchanged { OnErr result (users.new.store ≡ users.old.store) }
{
    match users.insert_unique(User { name, logins: 0 }) {
        Ok(_) => Ok(()),
        Err(InsertRefusal::Duplicate { .. }) => Err(SignUpError::Taken),
        Err(InsertRefusal::Full(_)) => Err(SignUpError::Full),
        Err(InsertRefusal::Memory(_)) => Err(SignUpError::Memory),
    }
}

/// Gives a user another name, under which the user is found from then on. It takes no memory.
pub fn rename(users: &mut IdHashMap<User>, from: &str, to: String) -> Result<(), RenameError>
    ensures renamed { OnOk result ((was : User)
        × Exchanges same_name (is_named from.now) (record was { name = to }) users.old was users.new) }
    ensures refused { IfErr result (IsWhyNotRenamed from.now (string_bytes to) users.old.store) }
    ensures unchanged { OnErr result (users.new ≡ users.old) }
{
    match users.change(
        from,
        |user| User {
            name: to,
            logins: user.logins,
        },
    ) {
        Ok(Some(_)) => Ok(()),
        Ok(None) => Err(RenameError::Missing),
        Err(ReplaceRefusal::Duplicate { .. }) => Err(RenameError::Taken),
        // Where nobody has the name it returns `Ok(None)`, and a map whose keys all go by their hashes takes no memory.
        Err(ReplaceRefusal::Missing(_)) | Err(ReplaceRefusal::Memory(_)) => unreachable!(),
    }
}

/// Counts a login of the user with this name, and returns how many they are then; none exactly where there is no such
/// user.
pub fn log_in(users: &mut IdHashMap<User>, name: &str) -> Option<u32>
    ensures counted { let named = is_named name.now in MatchOption result (HasNoHit users.old.store named)
        (λ count. LogsIn named count users.old users.new) }
    ensures unchanged { IfNone result (users.new ≡ users.old) }
{
    users.modify(name, |user| {
        user.logins = user.logins.saturating_add(1);
        user.logins
    })
}

/// Removes the user with this name, and hands the user back. All others stay.
pub fn leave(users: &mut IdHashMap<User>, name: &str) -> Option<User>
    ensures { Removes users.old (is_named name.now) result users.new }
{
    users.remove(name)
}

/// Does as `leave` does, and says which index the user had, for whoever keeps something of a user by index.
pub fn leave_index(users: &mut IdHashMap<User>, name: &str) -> Option<(ItemIndex, User)>
    ensures { RemovesFull users.old (is_named name.now) result users.new }
{
    users.remove_full(name)
}

/// Removes the users who never logged in, and returns how many stay.
pub fn forget_idle(users: &mut IdHashMap<User>) -> usize
    ensures stay { live_pairs users.new.store
        ≡ filter (λ pair. has_logged_in pair.1) (live_pairs users.old.store) }
    ensures count { result ≡ live_count users.new.store }
    ensures fewer { result ≤ live_count users.old.store }
{
    users.retain(|user| user.logins != 0);
    users.len()
}

fn script(alloc: Global, users: &mut IdHashMap<User>) -> Result<String, AllocError> {
    let first = sign_up(users, String::from_str(alloc, "ada")?);
    let second = sign_up(users, String::from_str(alloc, "ada")?);
    let third = rename(users, "ada", String::from_str(alloc, "bo")?);
    let found = (
        logins(users, "ada").is_some(),
        logins(users, "bo").is_some(),
    );
    let count = log_in(users, "bo");
    let active = forget_idle(users);
    let left = leave(users, "bo").is_some();
    format!(in alloc;
        "users: {first:?}, {second:?}, {third:?}, {found:?}, {count:?}, {active}, {left}"
    )
}

/// What the calls answer.
pub fn line(alloc: Global) -> Result<String, AllocError> {
    script(alloc, &mut IdHashMap::new(alloc))
}
