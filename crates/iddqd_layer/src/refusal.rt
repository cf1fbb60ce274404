//! Why a call of a layer refused.

/// Why an index wasn't inserted, or a layer wasn't made.
#[derive(Clone, Copy, Debug, Drop, PartialEq, Eq)]
pub enum Refusal {
    /// There are not as many hashes as hashed keys, or not as many ways as ordered keys; or more than sixteen keys of
    /// one kind were asked for.
    Count,
    /// A way leads to no gap of its table.
    Way,
    /// There are as many live indexes as there can be.
    Full,
    /// Memory ran out.
    Memory,
}
