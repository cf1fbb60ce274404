//! People in the order of the years in which they were born, and in that of their names. The year is computed, and a
//! name may be asked for by its beginning.
ghost use Rattle.std.specs.Prelude.{◌/◌};
ghost use Rattle.iddqd_maps.specs.InOrder.{IteratesInOrder};
ghost use Rattle.uses.specs.People.{begins, by_name, by_year, was_born};

use iddqd_maps::by_order_multi::{ByOrderMulti, ByOrderMultiOf};
use iddqd_maps::in_order::InOrder;
use iddqd_maps::key_index::Here;
use iddqd_maps::key_kinds::{Computed, ComputedKey};
use iddqd_maps::key_of::KeyOf;
use iddqd_maps::map::Map;
use iddqd_maps::ordered_walk::Range;
use iddqd_maps::starts_with::StartsWith;
use std::alloc::{AllocError, Global};

/// A person. Several may have one name, or be born in one year.
#[derive(Drop)]
pub struct Person {
    pub name: String,
    /// The day of birth, as 18151210.
    pub born: u32,
}

/// Names the name.
pub enum Name {}

impl KeyOf<Person> for Name {
    type Key = String;

    ghost key_of = { λ person. person.name };

    fn key(person: &Person) -> &String {
        &person.name
    }
}

/// Names the year of birth, which is computed.
pub enum Year {}

impl ComputedKey<Person> for Year {
    type Key = u32;

    ghost key_of = { λ person. person.born / 10000 };

    fn key(person: &Person) -> u32 {
        person.born / 10000
    }
}

type ByYear = Here;

type ByName = Here;

/// People in the order of the years in which they were born.
pub type People = Map<Person, ByOrderMultiOf<Computed<Year, u32>>>;

/// People in the order of their names.
pub type Names = Map<Person, ByOrderMulti<Name, String>>;

/// The people who were born in a year with their indexes.
pub fn born_in(people: &People, year: u32) -> Range<'_, Person>
    ensures { IteratesInOrder by_year (was_born year) people.now.store result }
{
    people.group_by::<ByYear, _>(&year)
}

/// The people whose names begin with a text with their indexes, by name.
pub fn beginning_with<'a>(names: &'a Names, text: &str) -> Range<'a, Person>
    ensures { IteratesInOrder by_name (begins text.now) names.now.store result }
{
    names.group_by::<ByName, _>(StartsWith(text))
}

// Whether somebody was born in that year, and in another one.
fn years(alloc: Global, people: &mut People) -> Result<(bool, bool), AllocError> {
    for (name, born) in [("Ada", 18151210), ("Bo", 18160101)] {
        let name = String::from_str(alloc, name)?;
        let _ = people.insert_unique(Person { name, born });
    }
    Ok((
        born_in(people, 1815).next().is_some(),
        born_in(people, 1817).next().is_some(),
    ))
}

// Whether a name begins with a text, and with a longer one.
fn beginnings(alloc: Global, names: &mut Names) -> Result<(bool, bool), AllocError> {
    for (name, born) in [("Ada", 18151210), ("Adam", 18150101)] {
        let name = String::from_str(alloc, name)?;
        let _ = names.insert_unique(Person { name, born });
    }
    Ok((
        beginning_with(names, "Ad").next().is_some(),
        beginning_with(names, "Adams").next().is_some(),
    ))
}

/// What the calls answer.
pub fn line(alloc: Global) -> Result<String, AllocError> {
    let years = years(alloc, &mut Map::new(alloc))?;
    let names = beginnings(alloc, &mut Map::new(alloc))?;
    format!(in alloc; "people: {years:?}, {names:?}")
}
