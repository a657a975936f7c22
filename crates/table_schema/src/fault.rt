ghost use Rattle.std.specs.Prelude.{◌≡◌};
ghost use Rattle.table_schema.specs.Keys.{key_text};

use crate::name::Name;
use pg_types::NoMemory;
use std::alloc::AllocFailed;
use thiserror::Error;

/// The keys of a description. `Kind` is written `type`; `Other` is any key that its level does not have.
#[derive(Clone, Copy, Debug)]
pub enum Key {
    Database,
    Table,
    Name,
    Oid,
    File,
    Column,
    Kind,
    Missing,
    Other,
}

impl Key {
    /// The key as a description writes it, and `other` for one that its level does not have.
    pub fn word(self) -> &'static str
        ensures { result.now ≡ key_text self }
    {
        match self {
            Key::Database => "database",
            Key::Table => "table",
            Key::Name => "name",
            Key::Oid => "oid",
            Key::File => "file",
            Key::Column => "column",
            Key::Kind => "type",
            Key::Missing => "missing",
            Key::Other => "other",
        }
    }
}

/// Why a text is no description. The first test that fails decides, in the text's order of tables and
/// columns, and in each of them in the order of `Key`.
#[derive(Debug, Drop, Error)]
pub enum SchemaFault {
    /// The text has more than 1 MiB.
    #[error("the text is too long")]
    TooLong,
    /// The text is no UTF-8, or no TOML.
    #[error("the text is no TOML")]
    Toml,
    /// The value of the key is absent or not as it has to be. Tables are numbered from 1 in the text's
    /// order; 0 is the level above them.
    #[error("the value of a key is wrong")]
    Field { table: u16, key: Key },
    /// The name, the oid or the file of the table with this name is also that of an earlier table, or a
    /// column with this name stands twice in its table.
    #[error("a value stands twice")]
    Twice { name: Name },
    /// There are more than 256 tables.
    #[error("there are too many tables")]
    Many,
    #[error("out of memory")]
    Memory,
}

impl From<NoMemory> for SchemaFault {
    ghost use Rattle.std.specs.Prelude.{◌≡◌};
    ghost use Rattle.table_schema.specs.declared.fault.SchemaFault.TheVariants.{Memory};

    ghost from_gives = { λ _ fault. fault ≡ Memory };

    fn from(_: NoMemory) -> SchemaFault {
        SchemaFault::Memory
    }
}

impl<T: Drop> From<AllocFailed<T>> for SchemaFault {
    ghost use Rattle.std.specs.Prelude.{◌≡◌};
    ghost use Rattle.table_schema.specs.declared.fault.SchemaFault.TheVariants.{Memory};

    ghost from_gives = { λ _ fault. fault ≡ Memory };

    fn from(_: AllocFailed<T>) -> SchemaFault {
        SchemaFault::Memory
    }
}
