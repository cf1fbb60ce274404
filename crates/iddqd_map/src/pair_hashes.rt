//! Hashes that a look-up in a pair of key indexes computed.
ghost use Rattle.iddqd_map.specs.PairHashes.{AreKnownToPair, KeepsFirst, KeepsSecond};

use crate::key_index::Moves;

/// The hashes that a look-up by a key of a pair computed. It goes to the one key index that has the key.
#[derive(Clone, Copy)]
pub enum PairHashes<A, B> {
    /// No look-up computed any.
    Neither,
    /// The first key index looked a key up.
    First(A),
    /// The second one did.
    Second(B),
}

/// The hashes that the first key index computed.
pub(crate) fn first_known<T, S, A: Moves<T, S>, B: Moves<T, S>>(
    known: PairHashes<A::KnownHashes, B::KnownHashes>,
) -> A::KnownHashes
    ensures known { (state : S) (item : T) → AreKnownToPair (A.are_known state item) (B.are_known state item) known
        → A.are_known state item result }
    ensures kept { KeepsFirst known result }
{
    match known {
        PairHashes::First(known) => known,
        _ => A::no_hashes(),
    }
}

/// The hashes that the second key index computed.
pub(crate) fn second_known<T, S, A: Moves<T, S>, B: Moves<T, S>>(
    known: PairHashes<A::KnownHashes, B::KnownHashes>,
) -> B::KnownHashes
    ensures known { (state : S) (item : T) → AreKnownToPair (A.are_known state item) (B.are_known state item) known
        → B.are_known state item result }
    ensures kept { KeepsSecond known result }
{
    match known {
        PairHashes::Second(known) => known,
        _ => B::no_hashes(),
    }
}
