//! The check of a store's slots.
//!
//! The check follows the chain and counts its slots. It marks none, so it takes no memory: a chain with a cycle passes
//! more vacant slots than there are, and a chain that ends has no slot twice. `SENTINEL` ends a chain, so slots with a
//! vacant one at `SENTINEL`'s number are never sound.
ghost use Rattle.std.specs.Prelude.{◌≡◌, ◌≢◌, ◌+◌, ◌-◌, ◌↔◌, ℕ, List, Ok, Err, Some, length, map, is_some, count_by, slice_get, IsOk, IfErr, MatchResult};
ghost use Rattle.iddqd.specs.declared.item_set.ItemSlot.TheVariants.{Vacant};
ghost use Rattle.iddqd.specs.Slots.{item_of, HasChain, IsSound};
ghost use Rattle.iddqd.specs.Validation.{Allows, IsSoundIn, Tells, not_compact_text};

use super::{ValidateCompact, ValidateRefusal, ValidationError};
use crate::item_index::ItemIndex;
use crate::item_set::ItemSlot;
use std::alloc::{AllocError, Global};

/// Whether the chain of vacant slots from `free_head` has each of them once, and `len` counts the occupied ones. In
/// `Compact` no slot may be vacant.
///
/// It costs at most two steps for each slot. For sound parts it returns `Ok` even if no memory is left.
pub fn validate_slots<T>(
    alloc: Global,
    slots: &[ItemSlot<T>],
    free_head: ItemIndex,
    len: u32,
    compactness: ValidateCompact,
) -> Result<(), ValidateRefusal<ValidationError>>
    ensures sound { IsOk result ↔ IsSoundIn compactness slots.now free_head len }

    // If the slots are sound but not compact, the error says so.
    ensures not_compact { IsSound slots.now free_head len →
        IfErr result (Tells (not_compact_text (length slots.now - len))) }
{
    let vacant = count_vacant(alloc, slots, len)?;
    walk_chain(alloc, slots, free_head, vacant)?;
    check_compact(alloc, vacant, compactness)
}

// The number of vacant slots, if `len` slots are occupied.
fn count_vacant<T>(
    alloc: Global,
    slots: &[ItemSlot<T>],
    len: u32,
) -> Result<usize, ValidateRefusal<ValidationError>>
    ensures { let occupied = count_by is_some (map item_of slots.now) in
        MatchResult result (λ vacant. (len ≡ occupied) × (len + vacant ≡ length slots.now)) (λ _. len ≢ occupied) }
{
    let occupied = count_occupied(slots);
    if occupied != len as usize {
        return Err(refusal(format!(in alloc;
            "ItemSet len ({len}) disagrees with occupied-slot count ({occupied})"
        )));
    }
    Ok(slots.len() - occupied)
}

fn count_occupied<T>(slots: &[ItemSlot<T>]) -> usize
    ensures { result ≡ count_by is_some (map item_of slots.now) }
{
    slots
        .iter()
        .filter(|slot| matches!(slot, ItemSlot::Occupied(_)))
        .count()
}

// Whether the chain from `head` has as many slots as are vacant.
fn walk_chain<T>(
    alloc: Global,
    slots: &[ItemSlot<T>],
    head: ItemIndex,
    vacant: usize,
) -> Result<(), ValidateRefusal<ValidationError>>
    ensures { IsOk result ↔ HasChain slots.now head vacant }
{
    let mut at = head;
    let mut walked = 0;
    'walking: while at != ItemIndex::SENTINEL {
        let next = link_at(alloc, slots, at)?;
        if walked == vacant {
            // In 128 bits, since `vacant + 1` may exceed a `usize`.
            let walked = vacant as u128 + 1;
            return Err(refusal(format!(in alloc;
                "ItemSet free chain cycles or overshoots: walked {walked} vacant slots, expected {vacant}"
            )));
        }
        walked += 1;
        at = next;
    }
    if walked != vacant {
        return Err(refusal(format!(in alloc;
            "ItemSet free chain length {walked} disagrees with vacant-slot count {vacant}"
        )));
    }
    Ok(())
}

// The link of a slot of the chain, or an error if the slot isn't vacant.
fn link_at<T>(
    alloc: Global,
    slots: &[ItemSlot<T>],
    at: ItemIndex,
) -> Result<ItemIndex, ValidateRefusal<ValidationError>>
    ensures { MatchResult result
        (λ next. slice_get slots.now at ≡ Some (Vacant next))
        (λ _. (next : ℕ) → slice_get slots.now at ≢ Some (Vacant next)) }
{
    match slots.get(at.as_u32() as usize) {
        Some(ItemSlot::Vacant { next }) => Ok(*next),
        Some(ItemSlot::Occupied(_)) => Err(refusal(format!(in alloc;
            "ItemSet free chain points at occupied slot {at}"
        ))),
        None => Err(refusal(format!(in alloc; "ItemSet free chain has out-of-range index {at}"))),
    }
}

// Whether the mode allows this number of vacant slots.
fn check_compact(
    alloc: Global,
    vacant: usize,
    compactness: ValidateCompact,
) -> Result<(), ValidateRefusal<ValidationError>>
    ensures allows { IsOk result ↔ Allows compactness vacant }
    ensures text { IfErr result (Tells (not_compact_text vacant)) }
{
    if let ValidateCompact::NonCompact = compactness {
        return Ok(());
    }
    if vacant == 0 {
        return Ok(());
    }
    Err(refusal(format!(in alloc; "ItemSet is not compact: {vacant} vacant slots")))
}

// The error with this text, or `Memory` if memory for the text ran out.
fn refusal(text: Result<String, AllocError>) -> ValidateRefusal<ValidationError>
    ensures { MatchResult text
        (λ told. result ≡ ValidateRefusal.Invalid (ValidationError.General told))
        (λ error. result ≡ ValidateRefusal.Memory error) }
{
    match text {
        Ok(text) => ValidateRefusal::Invalid(ValidationError::general(text)),
        Err(error) => ValidateRefusal::Memory(error),
    }
}
