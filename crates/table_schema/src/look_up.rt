ghost use Rattle.std.specs.Prelude.{◌≡◌, ◌<◌, length, IfSome};
ghost use Rattle.table_schema.specs.Description.{first_that, is_named, has_oid, has_file, number_at};
ghost use Rattle.table_schema.specs.Reading.{same_name};

use crate::name::Name;
use crate::tables::{Described, Tables};
use pg_types::Locator;

/// The place of the first table with this name.
pub fn place_named(tables: &[Described], name: &str) -> Option<usize>
    ensures first { result ≡ first_that (is_named name.now) 0 tables.now }
    ensures inside { IfSome result (λ place. place < length tables.now) }
{
    for (place, table) in tables.iter().enumerate() {
        if table.name().as_str() == name {
            return Some(place);
        }
    }
    None
}

/// The place of the first table with this oid.
pub fn place_with_oid(tables: &[Described], oid: u32) -> Option<usize>
    ensures first { result ≡ first_that (has_oid oid) 0 tables.now }
    ensures inside { IfSome result (λ place. place < length tables.now) }
{
    for (place, table) in tables.iter().enumerate() {
        if table.oid() == oid {
            return Some(place);
        }
    }
    None
}

/// The place of the first table with this file.
pub fn place_with_file(tables: &[Described], file: u32) -> Option<usize>
    ensures first { result ≡ first_that (has_file file) 0 tables.now }
    ensures inside { IfSome result (λ place. place < length tables.now) }
{
    for (place, table) in tables.iter().enumerate() {
        if table.file() == file {
            return Some(place);
        }
    }
    None
}

/// The place of the first of these names that is this one.
pub fn place_of_name(names: &[Name], name: &str) -> Option<usize>
    ensures { result ≡ first_that (same_name name.now) 0 names.now }
{
    for (place, other) in names.iter().enumerate() {
        if other.as_str() == name {
            return Some(place);
        }
    }
    None
}

impl Tables {
    /// The number of the table with this name.
    pub fn find(&self, name: &str) -> Option<u16>
        ensures first { result ≡ first_that (is_named name.now) 0 self.now.tables }
        ensures inside { IfSome result (λ table. table < length self.now.tables) }
    {
        match place_named(self.described(), name) {
            Some(place) => Some(place as u16),
            None => None,
        }
    }

    /// The number of the table with this oid.
    pub fn by_oid(&self, oid: u32) -> Option<u16>
        ensures first { result ≡ first_that (has_oid oid) 0 self.now.tables }
        ensures inside { IfSome result (λ table. table < length self.now.tables) }
    {
        match place_with_oid(self.described(), oid) {
            Some(place) => Some(place as u16),
            None => None,
        }
    }

    /// The number of the table with this file.
    pub fn by_locator(&self, locator: Locator) -> Option<u16>
        ensures first { result ≡ number_at self.now locator }
        ensures inside { IfSome result (λ table. table < length self.now.tables) }
    {
        if locator.space != 1663 || locator.db != self.database() {
            return None;
        }
        match place_with_file(self.described(), locator.rel) {
            Some(place) => Some(place as u16),
            None => None,
        }
    }
}
