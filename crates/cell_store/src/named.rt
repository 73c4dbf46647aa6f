ghost use Rattle.std.specs.Prelude.{◌≡◌};
ghost use Rattle.cell_store.specs.Writing.{all_rows};

use rep_types::{KeyRange, Text};

/// A run file, by its name in the folder of runs, and the rows of it that count.
#[derive(Drop)]
pub struct NamedRun {
    pub name: Text,
    pub range: KeyRange,
}

impl NamedRun {
    /// All rows of the run.
    pub fn whole(name: Text) -> NamedRun
        ensures { result ≡ record { name = name; range = all_rows } }
    {
        let Ok(range) = KeyRange::new(None, None) else {
            unreachable!()
        };
        NamedRun { name, range }
    }
}
