//! Artifacts by their names and versions: a key of two texts, both of which a look-up borrows.
ghost use Rattle.std.specs.Prelude.{◌≡◌, ◌↔◌, false, None, IfOk, IfErr, IfSome, IfNone, OnOk, OnErr, option_copied};
ghost use Rattle.iddqd_maps.specs.Map.{FindsItem, Removes, RemovesHit};
ghost use Rattle.iddqd_maps.specs.OneKey.{IsTaken};
ghost use Rattle.iddqd_maps.specs.Scan.{AnswersScan, HasNoHit};
ghost use Rattle.iddqd_maps.specs.Store.{get, inserted, next_index, removed};
ghost use Rattle.uses.specs.Artifacts.{Releases, is_called, same_artifact, with_size, with_version};
ghost use Rattle.uses.specs.declared.artifacts.Artifact.{Artifact};
ghost use Rattle.uses.specs.Exchanges.{Exchanges, IsWhyGoneAt, IsWhyGoneBy, IsWhyNot, IsWhyNotAdded};
ghost use Rattle.uses.specs.Updates.{Updates, UpdatesItem};

use iddqd_maps::{Field, HashMapBy, Here, InsertRefusal, ItemIndex, KeyOf, ReplaceRefusal};
use std::alloc::{AllocError, Global};

/// An artifact. No two have the same name and version.
#[derive(Drop)]
pub struct Artifact {
    pub name: String,
    pub version: String,
    pub size: u64,
}

/// Names the name.
pub enum Name {}

impl KeyOf<Artifact> for Name {
    type Key = String;

    ghost key_of = { λ artifact. artifact.name };

    fn key(artifact: &Artifact) -> &String {
        &artifact.name
    }
}

/// Names the version.
pub enum Version {}

impl KeyOf<Artifact> for Version {
    type Key = String;

    ghost key_of = { λ artifact. artifact.version };

    fn key(artifact: &Artifact) -> &String {
        &artifact.version
    }
}

/// Artifacts by their names and versions.
pub type Artifacts = HashMapBy<Artifact, (Field<Name, String>, Field<Version, String>)>;

/// Adds an artifact, unless one has its name and version.
pub fn add(
    artifacts: &mut Artifacts,
    artifact: Artifact,
) -> Result<ItemIndex, InsertRefusal<Artifact, ItemIndex>>
    ensures index { IfOk result (λ ix. ix ≡ next_index artifacts.old.store) }
    ensures new_key { OnOk result (HasNoHit artifacts.old.store (same_artifact artifact)) }
    ensures stored { OnOk result (artifacts.new.store ≡ inserted artifacts.old.store artifact) }
    ensures refused { IfErr result (IsWhyNotAdded same_artifact artifact artifacts.old) }
    ensures unchanged { OnErr result (artifacts.new.store ≡ artifacts.old.store) }
{
    artifacts.insert_unique(artifact)
}

/// The artifact with this name and version.
pub fn find<'a>(artifacts: &'a Artifacts, name: &str, version: &str) -> Option<&'a Artifact>
    ensures { FindsItem artifacts.now.store (is_called name.now version.now) (option_copied result) }
{
    artifacts.get((name, version))
}

/// The index of the artifact with this name and version.
pub fn index_of(artifacts: &Artifacts, name: &str, version: &str) -> Option<ItemIndex>
    ensures { AnswersScan artifacts.now.store (is_called name.now version.now) result }
{
    artifacts.find_by::<Here, _>((name, version))
}

/// Whether there is an artifact with this name and version.
pub fn is_there(artifacts: &Artifacts, name: &str, version: &str) -> bool
    ensures { (result ≡ false) ↔ HasNoHit artifacts.now.store (is_called name.now version.now) }
{
    artifacts.contains_by::<Here, _>((name, version))
}

/// Notes the size of an artifact; `None` if and only if there is no such artifact. It takes no memory.
pub fn resize(artifacts: &mut Artifacts, name: &str, version: &str, size: u64) -> Option<()>
    ensures { Updates artifacts.old (is_called name.now version.now) (with_size size) result artifacts.new }
{
    artifacts.modify_by::<Here, _, _, _>((name, version), |artifact| artifact.size = size)
}

/// Puts an artifact in the place of another one, which is handed back. It is refused exactly where that one isn't
/// there, or a third one has the new one's name and version. It takes no memory.
pub fn exchange(
    artifacts: &mut Artifacts,
    name: &str,
    version: &str,
    artifact: Artifact,
) -> Result<Artifact, ReplaceRefusal<Artifact, ItemIndex>>
    ensures exchanged { IfOk result (λ was.
        Exchanges same_artifact (is_called name.now version.now) artifact artifacts.old was artifacts.new) }
    ensures refused { IfErr result
        (IsWhyNot (IsTaken same_artifact) false (is_called name.now version.now) artifact artifacts.old) }
    ensures unchanged { OnErr result (artifacts.new ≡ artifacts.old) }
{
    artifacts.replace_by::<Here, _>((name, version), artifact)
}

/// Removes an artifact. It takes no memory.
pub fn remove(artifacts: &mut Artifacts, name: &str, version: &str) -> Option<Artifact>
    ensures removes { Removes artifacts.old (is_called name.now version.now) result artifacts.new }
    ensures gone { HasNoHit artifacts.new.store (is_called name.now version.now) }
{
    artifacts.remove((name, version))
}

/// Gives an artifact another version, and its index stays; `Ok(None)` if and only if there is no such artifact. If
/// another artifact has its name and the new version, the released one is returned, and the map has it no longer.
pub fn release(
    artifacts: &mut Artifacts,
    name: &str,
    version: &str,
    next: String,
) -> Result<Option<ItemIndex>, InsertRefusal<Artifact, ItemIndex>>
    ensures released { IfOk result (λ found. IfSome found
        (Releases artifacts.old.store name.now version.now next artifacts.new.store)) }
    ensures missing { let called = is_called name.now version.now in
        IfOk result (λ found. IfNone found (HasNoHit artifacts.old.store called)) }
    ensures unchanged { IfOk result (λ found. IfNone found (artifacts.new ≡ artifacts.old)) }
    ensures refused { let called = is_called name.now version.now in
        IfErr result (IsWhyGoneBy same_artifact false called (with_version next) artifacts.old) }
    ensures gone { OnErr result ((was : Artifact)
        × RemovesHit artifacts.old (is_called name.now version.now) was artifacts.new) }
{
    artifacts.remake_by::<Here, _, _>(
        (name, version),
        |artifact| Artifact {
            version: next,
            ..artifact
        },
    )
}

/// The same by an artifact's index.
pub fn release_at(
    artifacts: &mut Artifacts,
    ix: ItemIndex,
    next: String,
) -> Result<Option<ItemIndex>, InsertRefusal<Artifact, ItemIndex>>
    ensures released { IfOk result (λ found. IfSome found
        (λ at. (at ≡ ix) × UpdatesItem artifacts.old.store ix (with_version next) artifacts.new.store)) }
    ensures missing { IfOk result (λ found. IfNone found (get artifacts.old.store ix ≡ None)) }
    ensures unchanged { IfOk result (λ found. IfNone found (artifacts.new ≡ artifacts.old)) }
    ensures refused { IfErr result
        (IsWhyGoneAt same_artifact false ix (with_version next) artifacts.old) }
    ensures gone { OnErr result (artifacts.new.store ≡ removed artifacts.old.store ix) }
{
    artifacts.remake_at(
        ix,
        |artifact| Artifact {
            version: next,
            ..artifact
        },
    )
}

fn made(alloc: Global, name: &str, version: &str) -> Result<Artifact, AllocError> {
    Ok(Artifact {
        name: String::from_str(alloc, name)?,
        version: String::from_str(alloc, version)?,
        size: 0,
    })
}

fn script(alloc: Global, artifacts: &mut Artifacts) -> Result<String, AllocError> {
    let first = add(artifacts, made(alloc, "serde", "1.0")?).is_ok();
    let second = add(artifacts, made(alloc, "serde", "1.1")?).is_ok();
    let third = add(artifacts, made(alloc, "serde", "1.0")?).is_ok();
    let resized = resize(artifacts, "serde", "1.1", 80).is_some();
    let found = (
        find(artifacts, "serde", "1.1").is_some(),
        is_there(artifacts, "serde", ""),
        index_of(artifacts, "serde1", ".1"),
    );
    let next = (
        release(artifacts, "serde", "1.1", String::from_str(alloc, "2.0")?).is_ok(),
        release_at(
            artifacts,
            ItemIndex::new(7),
            String::from_str(alloc, "3.0")?,
        )
        .is_ok(),
        find(artifacts, "serde", "2.0").is_some(),
    );
    let removed = remove(artifacts, "serde", "1.0").is_some();
    format!(in alloc;
        "artifacts: {first}, {second}, {third}, {resized}, {found:?}, {next:?}, {removed}"
    )
}

/// What the calls answer.
pub fn line(alloc: Global) -> Result<String, AllocError> {
    script(alloc, &mut Artifacts::new(alloc))
}
