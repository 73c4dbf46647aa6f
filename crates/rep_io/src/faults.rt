ghost use Rattle.std.specs.Prelude.{◌≡◌, ◌<◌, ◌^◌};

/// How many calls failed. The count stands still at the end of 64 bits.
#[derive(Drop)]
pub struct Faults {
    pub count: u64,
    ghost fits: { count < 2 ^ 64 },
}

impl Faults {
    ghost use Rattle.rep_io.specs.Io.{next_count};

    pub fn raise(&mut self)
        ensures { self.new.count ≡ next_count self.old.count }
    {
        self.count = self.count.saturating_add(1);
    }
}
