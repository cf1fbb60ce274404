//! Steps through the indexes that a conflict reports, from the least to the greatest.
ghost use Rattle.std.specs.Prelude.{◌≡◌};
ghost use Rattle.iddqd_map.specs.KeyIndex.{IsNextReported};
ghost use Rattle.iddqd_map.specs.KeyLaws.{IsIt};
ghost use Rattle.iddqd_map.specs.PairConflict.{IsReportedBy, lesser_of};

use iddqd::item_index::ItemIndex;

/// The index that a table by one key reported, if it is greater than `before`.
pub fn past(reported: &Option<ItemIndex>, before: &Option<ItemIndex>) -> Option<ItemIndex>
    ensures { IsNextReported (IsReportedBy IsIt reported.now) before.now result }
{
    match reported {
        None => None,
        Some(at) => match before {
            Some(before) if *at <= *before => None,
            _ => Some(*at),
        },
    }
}

/// The lesser of two indexes, or the one that there is.
pub fn lesser(one: Option<ItemIndex>, other: Option<ItemIndex>) -> Option<ItemIndex>
    ensures { result ≡ lesser_of one other }
{
    match other {
        Some(at) => match one {
            Some(ix) => Some(ix.min(at)),
            None => Some(at),
        },
        None => one,
    }
}
