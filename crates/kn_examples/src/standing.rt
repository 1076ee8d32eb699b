//! An example of a system whose rows change while its levels are kept: whom the change affects, and what the levels are
//! before and after it. The functions have no body: their clauses are what they say.

ghost use Rattle.std.specs.Prelude.{◌≡◌, ◌≤◌, ◌∷◌, []};
ghost use Rattle.kn_system.specs.Least.{least_levels};
ghost use Rattle.kn_watch.specs.Affected.{AreAffected, most_refresh_ticks};
ghost use Rattle.kn_watch.specs.Changes.{system_before};
ghost use Rattle.kn_watch.specs.Unaffected.{IsUnaffected};
ghost use Rattle.kn_examples.specs.Licensing.{licensing, third_row, third_authorizer};

/// A new row raises its authorizer, whom no other row names. So the policy keeps its level.
pub fn refreshed_levels()
    ensures before { least_levels (system_before licensing third_row) ≡ 1 ∷ 1 ∷ 0 ∷ 1 ∷ [] }
    ensures after { least_levels licensing ≡ 1 ∷ 1 ∷ 1 ∷ 1 ∷ [] }
    ensures affected { AreAffected licensing third_row third_authorizer }
    ensures steps { most_refresh_ticks licensing third_authorizer ≤ 32 }
    ensures policy { IsUnaffected licensing (2 ∷ []) 0 }
{}
