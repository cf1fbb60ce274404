//! A mix of a hash and an order: sessions by their ids, and in the order in which they end.
ghost use Rattle.std.specs.Prelude.{◌≡◌, ◌==◌, true, IfOk, IfErr, OnOk, OnErr};
ghost use Rattle.iddqd_maps.specs.Map.{FindsItem, Removes};
ghost use Rattle.iddqd_maps.specs.Scan.{HasNoHit};
ghost use Rattle.iddqd_maps.specs.Store.{inserted, next_index};
ghost use Rattle.uses.specs.Exchanges.{ExchangesIfFound, IsKeyTaken, IsWhyNotAdded, IsWhyNotChanged};
ghost use Rattle.uses.specs.Sessions.{ending, ends_at, has_id, share_key};
ghost use Rattle.uses.specs.declared.sessions.Session.{Session};

use iddqd_maps::by_hash::ByHash;
use iddqd_maps::by_order::ByOrder;
use iddqd_maps::in_order::InOrder;
use iddqd_maps::item_index::ItemIndex;
use iddqd_maps::key_index::{Here, Left, Right};
use iddqd_maps::key_of::KeyOf;
use iddqd_maps::map::Map;
use iddqd_maps::ordered_parts::OrderedParts;
use iddqd_maps::pair::Pair;
use iddqd_maps::pair_conflict::PairConflict;
use iddqd_maps::refusal::{InsertRefusal, ReplaceRefusal};
use std::alloc::{AllocError, Global};

/// A session. No two have the same id, or end at the same tick of the clock.
#[derive(Clone, Copy, Debug)]
pub struct Session {
    pub id: u64,
    pub ends: u64,
    pub user: u32,
}

/// Names the id.
pub enum Id {}

impl KeyOf<Session> for Id {
    type Key = u64;

    ghost key_of = { λ session. session.id };

    fn key(session: &Session) -> &u64 {
        &session.id
    }
}

/// Names the tick at which it ends.
pub enum Ends {}

impl KeyOf<Session> for Ends {
    type Key = u64;

    ghost key_of = { λ session. session.ends };

    fn key(session: &Session) -> &u64 {
        &session.ends
    }
}

/// Which keys of a refused session are taken, and by which sessions.
pub type Taken = PairConflict<ItemIndex, ItemIndex>;

type ById = Left<Here>;

type ByEnd = Right<Here>;

/// Sessions by their ids, and in the order in which they end.
pub type Sessions = Map<Session, Pair<ByHash<Id, u64>, ByOrder<Ends, u64>>>;

/// Opens a session, unless another one has its id or its end.
pub fn open(
    sessions: &mut Sessions,
    session: Session,
) -> Result<ItemIndex, InsertRefusal<Session, Taken>>
    ensures index { IfOk result (λ ix. ix ≡ next_index sessions.old.store) }
    ensures unlike { IfOk result (λ _. HasNoHit sessions.old.store (share_key session)) }
    ensures stored { OnOk result (sessions.new.store ≡ inserted sessions.old.store session) }
    ensures refused { IfErr result (IsWhyNotAdded share_key session sessions.old) }
    ensures unchanged { OnErr result (sessions.new.store ≡ sessions.old.store) }
{
    sessions.insert_unique(session)
}

/// The session with this id.
pub fn with_id(sessions: &Sessions, id: u64) -> Option<Session>
    ensures { FindsItem sessions.now.store (λ session. id == session.id) result }
{
    sessions.get_by::<ById, _>(&id).copied()
}

/// Lets the session with this id end at another tick, and returns what it was; none exactly where there is no such
/// session. It is refused where another session has the tick, or memory ran out, which comes only past the capacity.
pub fn extend(
    sessions: &mut Sessions,
    id: u64,
    ends: u64,
) -> Result<Option<Session>, ReplaceRefusal<Session, Taken>>
    ensures extended { IfOk result
        (λ found. ExchangesIfFound share_key (has_id id) (ending ends) sessions.old found sessions.new) }
    ensures refused { IfErr result
        (IsWhyNotChanged (IsKeyTaken share_key) true (has_id id) (ending ends) sessions.old) }
    ensures unchanged { OnErr result (sessions.new ≡ sessions.old) }
{
    sessions.change_by::<ById, _, _>(&id, |session| Session { ends, ..*session })
}

/// Closes the session that ends at this tick, and returns it. All others stay. It takes no memory.
pub fn close_at(sessions: &mut Sessions, tick: u64) -> Option<Session>
    ensures { Removes sessions.old (ends_at tick) result sessions.new }
{
    sessions.remove_by::<ByEnd, _>(&tick)
}

fn opened(sessions: &mut Sessions, id: u64, ends: u64) -> bool {
    let user = 7;
    open(sessions, Session { id, ends, user }).is_ok()
}

fn script(alloc: Global, sessions: &mut Sessions) -> Result<String, AllocError> {
    let first = opened(sessions, 1, 100);
    let second = opened(sessions, 2, 90);
    let third = opened(sessions, 3, 90);
    let extended = extend(sessions, 2, 200).is_ok();
    let closed = (
        close_at(sessions, 90).is_some(),
        close_at(sessions, 200).is_some(),
        with_id(sessions, 2).is_some(),
    );
    format!(in alloc; "sessions: {first}, {second}, {third}, {extended}, {closed:?}")
}

/// What the calls answer.
pub fn line(alloc: Global) -> Result<String, AllocError> {
    script(alloc, &mut Map::new(alloc))
}
