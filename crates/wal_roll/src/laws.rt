ghost use Rattle.std.specs.Prelude.{◌≡◌, ◌<◌, ◌^◌, ℕ};
ghost use Rattle.wal_roll.specs.Log.{log_name};

/// The names of logs tell them apart, so a call on one log leaves the files of the others.
pub fn log_names_are_apart()
    ensures { (server number other another : ℕ) → server < 2 ^ 64 → number < 2 ^ 64 → other < 2 ^ 64 → another < 2 ^ 64
        → log_name server number ≡ log_name other another → (server ≡ other) × (number ≡ another) }
{}
