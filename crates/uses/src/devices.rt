//! A mix of keys of one's own: devices that are found by each of four keys, by its hash.
//!
//! A type without values names each key, and pairs of key indexes put the four together. The place of a key in them is
//! the type that a look-up names.
ghost use Rattle.std.specs.Prelude.{◌≡◌, ◌==◌, option_copied, IfOk, IfErr, OnOk, OnErr};
ghost use Rattle.iddqd_maps.specs.Map.{FindsItem};
ghost use Rattle.iddqd_maps.specs.Scan.{HasNoHit};
ghost use Rattle.iddqd_maps.specs.Store.{inserted, next_index};
ghost use Rattle.uses.specs.Devices.{share_key};
ghost use Rattle.uses.specs.Exchanges.{IsWhyNotAdded, IsWhyNotTakenOver, TakesOver};

use iddqd_maps::by_hash::ByHash;
use iddqd_maps::item_index::ItemIndex;
use iddqd_maps::key_index::{Here, Left};
use iddqd_maps::key_of::KeyOf;
use iddqd_maps::map::Map;
use iddqd_maps::pair::Pair;
use iddqd_maps::pair_conflict::PairConflict;
use iddqd_maps::refusal::{InsertRefusal, OverwriteRefusal};
use std::alloc::{AllocError, Global};

/// A device. No two have the same serial number, address, tag or name.
#[derive(Drop)]
pub struct Device {
    pub serial: u64,
    pub address: u32,
    pub tag: u32,
    pub name: String,
    pub ports: u32,
}

/// Names the serial number.
pub enum Serial {}

impl KeyOf<Device> for Serial {
    type Key = u64;

    ghost key_of = { λ device. device.serial };

    fn key(device: &Device) -> &u64 {
        &device.serial
    }
}

/// Names the address.
pub enum Address {}

impl KeyOf<Device> for Address {
    type Key = u32;

    ghost key_of = { λ device. device.address };

    fn key(device: &Device) -> &u32 {
        &device.address
    }
}

/// Names the tag.
pub enum Tag {}

impl KeyOf<Device> for Tag {
    type Key = u32;

    ghost key_of = { λ device. device.tag };

    fn key(device: &Device) -> &u32 {
        &device.tag
    }
}

/// Names the name.
pub enum Name {}

impl KeyOf<Device> for Name {
    type Key = String;

    ghost key_of = { λ device. device.name };

    fn key(device: &Device) -> &String {
        &device.name
    }
}

/// Which devices have the serial number and the address of a refused one; or its tag and its name.
pub type Taken = PairConflict<ItemIndex, ItemIndex>;

/// Which devices have which of the four keys of a refused one.
pub type TakenKeys = PairConflict<Taken, Taken>;

type Numbers = Pair<ByHash<Serial, u64>, ByHash<Address, u32>>;

type Labels = Pair<ByHash<Tag, u32>, ByHash<Name, String>>;

type BySerial = Left<Left<Here>>;

/// Devices by each of the four keys.
pub type Devices = Map<Device, Pair<Numbers, Labels>>;

/// Adds a device that shares no key with another.
pub fn add(
    devices: &mut Devices,
    device: Device,
) -> Result<ItemIndex, InsertRefusal<Device, TakenKeys>>
    ensures index { IfOk result (λ ix. ix ≡ next_index devices.old.store) }
    ensures unlike { IfOk result (λ _. HasNoHit devices.old.store (share_key device)) }
    ensures stored { OnOk result (devices.new.store ≡ inserted devices.old.store device) }
    ensures refused { IfErr result (IsWhyNotAdded share_key device devices.old) }
    ensures unchanged { OnErr result (devices.new.store ≡ devices.old.store) }
{
    devices.insert_unique(device)
}

/// The device with this serial number.
pub fn with_serial(devices: &Devices, serial: u64) -> Option<&Device>
    ensures { FindsItem devices.now.store (λ device. serial == device.serial) (option_copied result) }
{
    devices.get_by::<BySerial, _>(&serial)
}

/// Adds a device, and hands back those that share a key with it, up to four. If one does, it takes no memory. It is
/// refused only where none does, and there are as many devices as the limit allows or there is no memory.
pub fn take_over(
    devices: &mut Devices,
    device: Device,
) -> Result<(ItemIndex, [Option<(ItemIndex, Device)>; 4]), OverwriteRefusal<Device>>
    ensures taken { IfOk result
        (λ taken. TakesOver share_key 4 device devices.old taken.0 taken.1 devices.new) }
    ensures refused { IfErr result (IsWhyNotTakenOver share_key device devices.old) }
    ensures unchanged { OnErr result (devices.new.store ≡ devices.old.store) }
{
    let mut places = [None, None, None, None];
    let ix = devices.overwrite_into(device, &mut places)?;
    Ok((ix, places))
}

fn made(
    alloc: Global,
    (serial, address, tag): (u64, u32, u32),
    name: &str,
) -> Result<Device, AllocError> {
    Ok(Device {
        serial,
        address,
        tag,
        name: String::from_str(alloc, name)?,
        ports: 4,
    })
}

// How many there are.
fn count_of(devices: &[Option<(ItemIndex, Device)>; 4]) -> usize {
    devices.iter().filter(|device| device.is_some()).count()
}

// How many devices have to go for this one.
fn displaced(devices: &mut Devices, device: Device) -> usize {
    match take_over(devices, device) {
        Ok(taken) => count_of(&taken.1),
        Err(_) => 0,
    }
}

fn script(alloc: Global, devices: &mut Devices) -> Result<String, AllocError> {
    let first = add(devices, made(alloc, (1, 10, 100), "door")?).is_ok();
    let second = add(devices, made(alloc, (2, 20, 200), "lamp")?).is_ok();
    let third = add(devices, made(alloc, (3, 10, 300), "lamp")?).is_ok();
    let displaced = displaced(devices, made(alloc, (5, 10, 200), "bell")?);
    let found = (
        with_serial(devices, 2).is_some(),
        with_serial(devices, 5).is_some(),
    );
    format!(in alloc; "devices: {first}, {second}, {third}, {displaced}, {found:?}")
}

/// What the calls answer.
pub fn line(alloc: Global) -> Result<String, AllocError> {
    script(alloc, &mut Map::new(alloc))
}
