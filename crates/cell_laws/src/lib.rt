//! What the cells of a table show in the order of a run is what the table shows when they are written one by one in the order of
//! their ranks.
#![tactic(auto)]

ghost use Rattle.std.specs.Prelude.{◌≡◌, ℕ, Bool, true, List, map};
ghost use Rattle.std.specs.List.{list_any};
ghost use Rattle.rep_model.specs.See.{see};
ghost use Rattle.store_file.specs.declared.cell.RunCell.{RunCell};
ghost use Rattle.store_file.specs.Order.{are_in_order};
ghost use Rattle.run_cells.specs.Outdone.{shown};
ghost use Rattle.cell_laws.specs.Ranked.{edit_of, NeverFalls};

/// Cells in the order of a run show what their edits show when they are written in the order of their ranks (Reference Guide, "Versions
/// and HBase Operations"; ranks are this project's own).
pub fn runs_show_what_edits_show()
    ensures { (table : List ℕ) (cells ranked : List RunCell) → are_in_order cells ≡ true → NeverFalls ranked
        → ((test : RunCell → Bool) → list_any test ranked ≡ list_any test cells)
        → see (map (edit_of table) ranked) ≡ shown cells }
{}
