//! Whether the policy keeps its level while assertions of a base come and go.
ghost use Rattle.std.specs.Prelude.{◌≡◌, ◌<◌, All, true, length, IfOk};
ghost use Rattle.kn_watch.specs.Unaffected.{IsKnown};
ghost use Rattle.kn_answer.specs.Unaffected.{KeepsPolicyLevel};

use crate::base::Base;
use kn_base::{NoMemory, Steps};
use kn_rows::Tally;
use kn_watch::is_unaffected;
use std::alloc::Global;

/// The policy's number in a base.
const POLICY: u32 = 0;

/// How many principals a change may affect before it isn't looked further.
const MOST_AFFECTED: u32 = 64;

impl Base {
    /// Whether the policy keeps its level, whatever is asked, where the assertions of these rows come or go and no
    /// others do. False where they may affect it, or more than 64 principals.
    ///
    /// `NoMemory` comes only when memory runs out.
    pub fn keeps_policy_level(&self, alloc: Global, rows: &[u32]) -> Result<bool, NoMemory>
        requires in_range { All (λ row. row < length self.now.live) rows.now }
        ensures kept { IfOk result (λ keeps. keeps ≡ true → KeepsPolicyLevel rows.now self.now) }
        ensures known { IfOk result (IsKnown self.now.system rows.now 0 64) }
    {
        kn_laws::laws::unaffected_keep_level();
        is_unaffected(
            alloc,
            &self.numbered.system,
            rows,
            POLICY,
            MOST_AFFECTED,
            &mut Steps::start(Tally),
        )
    }
}
