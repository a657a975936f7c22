ghost use Rattle.std.specs.Prelude.{◌≡◌, IfOk};

use pg_types::NoMemory;
use std::alloc::Global;
use std::marker::Model;

/// The name of a table or a column (`NameData`, c.h). Contracts see it as its bytes, in UTF-8.
#[derive(Debug, Drop)]
pub struct Name {
    text: String,
}

impl Model for Name {
    ghost use Rattle.std.specs.Prelude.{List, ℕ, string_bytes};

    ghost Value = { List ℕ };

    ghost view = { λ name. string_bytes name.text };
}

impl Name {
    pub fn from_str(alloc: Global, text: &str) -> Result<Name, NoMemory>
        ensures { IfOk result (λ name. name ≡ text.now) }
    {
        let text = String::from_str(alloc, text)?;
        Ok(Name { text })
    }

    pub fn as_str(&self) -> &str
        ensures { result.now ≡ self.now }
    {
        self.text.as_str()
    }
}
