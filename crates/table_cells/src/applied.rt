ghost use Rattle.std.specs.Prelude.{◌≡◌, [], ◌∷◌, ◌++◌};
ghost use Rattle.table_cells.specs.History.{edits_of};

use rep_types::Edit;
use std::mem;
use std::snapshot::Snapshot;

/// The edits that were applied, for contracts alone: no edit takes memory here.
#[derive(Drop)]
pub enum Applied {
    Nothing,
    Then(Snapshot<Applied>, Snapshot<Edit>),
}

impl Applied {
    fn then(self, edit: &Edit) -> Applied
        ensures { edits_of result ≡ edits_of self ++ edit.now ∷ [] }
    {
        Applied::Then(Snapshot::of(&self), Snapshot::of(edit))
    }

    pub fn push(&mut self, edit: &Edit)
        ensures { edits_of self.new ≡ edits_of self.old ++ edit.now ∷ [] }
    {
        let before = mem::replace(self, Applied::Nothing);
        *self = before.then(edit);
    }
}
