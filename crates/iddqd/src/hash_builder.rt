//! The default build hasher.
use std::hash::{BuildHasherDefault, FoldHasher};

/// A build hasher with a fixed seed, made by `default()`: equal keys hash alike in every process.
///
/// It is quick on short keys and doesn't resist keys that are chosen to collide. A caller whose keys come from
/// untrusted sources passes a build hasher of their own.
pub type DefaultHashBuilder = BuildHasherDefault<FoldHasher>;
