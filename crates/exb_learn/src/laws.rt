//! What a look-up answers over every list of calls.
ghost use Rattle.std.specs.Prelude.{◌≡◌, ℕ, List};
ghost use Rattle.exb_learn.specs.Calls.{Call, Table, run, look_in};
ghost use Rattle.exb_learn.specs.Counts.{HasLive};
ghost use Rattle.exb_learn.specs.Sightings.{look_after};
ghost use Rattle.exb_learn.specs.Histories.{table_after};
ghost use Rattle.exb_model.specs.History.{Basis, History};
ghost use Rattle.exb_model.specs.Learning.{learned};

/// After any calls, the newest first, a look-up answers the port of the last `see` for the VLAN and
/// address, if clock minus seen is below the ageing time and no later `forget` named that port;
/// else None.
pub fn looks_are_of_the_last_sighting()
    ensures { (ageing : ℕ) (calls : List Call) (v : ℕ) (m : List ℕ) → look_in (run ageing calls) v m
        ≡ look_after ageing calls v m }
{}

/// Over a history, with a `see` for each frame that passes and has an individual source, a `tick`
/// for each tick, and a `forget` for each port that a command takes down, a look-up answers what
/// the bridge has learned by that history.
pub fn looks_are_what_the_bridge_learned()
    ensures { (i : Basis) (h : History) (v : ℕ) (m : List ℕ) → look_in (table_after i h) v m
        ≡ learned i h v m }
{}

/// No table has two numbers of live entries.
pub fn a_table_has_one_number_of_entries()
    ensures { (t : Table) (a b : ℕ) → HasLive t a → HasLive t b → a ≡ b }
{}
