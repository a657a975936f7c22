ghost use Rattle.std.specs.Prelude.{◌≡◌, ◌<◌, ◌≤◌, length, Some, slice_get, option_map, option_and_then, IfSome, IfOk};
ghost use Rattle.table_schema.specs.Description.{Description, DescribedTable, locator_in, locators, table_at};

use crate::name::Name;
use heap_tuple::Column;
use pg_types::{Locator, NoMemory};
use std::alloc::Global;
use std::marker::Model;

/// The columns of a table and their names, as many of each. Contracts see both lists.
#[derive(Drop)]
pub struct ColumnsRead {
    names: Vec<Name>,
    columns: Vec<Column>,
}

impl Model for ColumnsRead {
    ghost use Rattle.std.specs.Prelude.{◌≡◌, List, ℕ, length};
    ghost use Rattle.heap_tuple.specs.declared.cell.Column.{Column};

    ghost Value = { List (List ℕ) × List Column };

    ghost view = { λ read. (read.names.items, read.columns.items) };

    ghost invariant = { λ read. length read.names.items ≡ length read.columns.items };
}

impl ColumnsRead {
    pub fn new(names: Vec<Name>, columns: Vec<Column>) -> ColumnsRead
        requires { length names.items ≡ length columns.items }
        ensures { result ≡ (names.items, columns.items) }
    {
        ColumnsRead { names, columns }
    }
}

/// A described table.
#[derive(Drop)]
pub struct Described {
    name: Name,
    oid: u32,
    file: u32,
    read: ColumnsRead,
}

impl Model for Described {
    ghost use Rattle.table_schema.specs.Description.{DescribedTable};

    ghost Value = { DescribedTable };

    ghost view = { λ table. record { name = table.name; oid = table.oid; file = table.file; column_names = table.read.0; columns = table.read.1 } };
}

impl Described {
    pub fn new(name: Name, oid: u32, file: u32, read: ColumnsRead) -> Described
        ensures { result ≡ record { name = name; oid = oid; file = file; column_names = read.0; columns = read.1 } }
    {
        Described {
            name,
            oid,
            file,
            read,
        }
    }

    pub fn name(&self) -> &Name
        ensures { result.now ≡ self.now.name }
    {
        &self.name
    }

    pub fn oid(&self) -> u32
        ensures { result ≡ self.now.oid }
    {
        self.oid
    }

    pub fn file(&self) -> u32
        ensures { result ≡ self.now.file }
    {
        self.file
    }

    pub fn columns(&self) -> &[Column]
        ensures columns { result.now ≡ self.now.columns }
        ensures named { length self.now.column_names ≡ length self.now.columns }
    {
        self.read.columns.as_slice()
    }

    fn locator(&self, database: u32) -> Locator
        ensures { result ≡ locator_in database self.now }
    {
        Locator {
            space: 1663,
            db: database,
            rel: self.file,
        }
    }
}

/// The tables that a description names, at most 256, numbered from 0 in the order of its text. Contracts
/// see the description as a value.
#[derive(Drop)]
pub struct Tables {
    database: u32,
    tables: Vec<Described>,
    locators: Vec<Locator>,
}

impl Model for Tables {
    ghost use Rattle.std.specs.Prelude.{◌≡◌, ◌≤◌, length, map};
    ghost use Rattle.table_schema.specs.Description.{Description, locator_in};

    ghost Value = { Description };

    ghost view = { λ described. record { database = described.database; tables = described.tables.items } };

    ghost invariant = { λ described. (length described.tables.items ≤ 256) × (described.locators.items ≡ map (locator_in described.database) described.tables.items) };
}

impl Tables {
    /// A description of these tables.
    pub(crate) fn new(
        alloc: Global,
        database: u32,
        tables: Vec<Described>,
    ) -> Result<Tables, NoMemory>
        requires { length tables.items ≤ 256 }
        ensures { IfOk result (λ described. described ≡ record { database = database; tables = tables.items }) }
    {
        let mut locators = Vec::new(alloc);
        for table in tables.as_slice() {
            locators.push(table.locator(database))?;
        }
        Ok(Tables {
            database,
            tables,
            locators,
        })
    }

    /// The described tables, in order of their numbers.
    pub(crate) fn described(&self) -> &[Described]
        ensures described { result.now ≡ self.now.tables }
        ensures few { length result.now ≤ 256 }
    {
        self.tables.as_slice()
    }

    /// The files of the tables, in order of their numbers.
    pub fn locators(&self) -> &[Locator]
        ensures files { result.now ≡ locators self.now }
        ensures count { length result.now ≡ length self.now.tables }
        ensures few { length result.now ≤ 256 }
    {
        self.locators.as_slice()
    }

    /// The oid of the database that has the tables.
    pub fn database(&self) -> u32
        ensures { result ≡ self.now.database }
    {
        self.database
    }

    /// The table with this number.
    fn table(&self, table: u16) -> &Described
        requires { table < length self.now.tables }
        ensures { Some result.now ≡ table_at self.now table }
    {
        &self.tables[table as usize]
    }

    /// The name of a table.
    pub fn name(&self, table: u16) -> &Name
        requires { table < length self.now.tables }
        ensures { Some result.now ≡ option_map (λ t. t.name) (table_at self.now table) }
    {
        self.table(table).name()
    }

    /// The oid of a table, which locks name.
    pub fn oid(&self, table: u16) -> u32
        requires { table < length self.now.tables }
        ensures { Some result ≡ option_map (λ t. t.oid) (table_at self.now table) }
    {
        self.table(table).oid()
    }

    /// The columns of a table.
    pub fn columns(&self, table: u16) -> &[Column]
        requires { table < length self.now.tables }
        ensures columns { Some result.now ≡ option_map (λ t. t.columns) (table_at self.now table) }
        ensures named { IfSome (table_at self.now table) (λ t. length t.column_names ≡ length t.columns) }
    {
        self.table(table).columns()
    }

    /// The name of a table's column. Columns are numbered from 0.
    pub fn column_name(&self, table: u16, column: u16) -> &Name
        requires table { table < length self.now.tables }
        requires column { IfSome (table_at self.now table) (λ t. column < length t.columns) }
        ensures { Some result.now ≡ option_and_then (λ t. slice_get t.column_names column) (table_at self.now table) }
    {
        let read = &self.table(table).read;
        &read.names[column as usize]
    }
}
