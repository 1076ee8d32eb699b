//! The versions that a book retains beside the newest one.

ghost use Rattle.std.specs.Prelude.{◌≡◌, [], length, slice_get, option_map, IfOk, OnOk};
ghost use Rattle.std.specs.Arc.{arc_value};
ghost use Rattle.kn_store.specs.EarlierVersions.{with_version};

use crate::version::{Snapshot, Version};
use kn_base::limits::RETAINED_VERSIONS;
use kn_base::{NoMemory, Reserved};
use kn_pages::share_into;
use std::alloc::Global;
use std::marker::Model;

/// Versions in their order, with room for all that are retained beside the newest. It is seen as their list.
#[derive(Drop)]
pub(crate) struct Earlier {
    versions: Reserved<Snapshot>,
}

impl Model for Earlier {
    ghost use Rattle.std.specs.Prelude.{List, map};
    ghost use Rattle.std.specs.Arc.{arc_value};
    ghost use Rattle.kn_history.specs.declared.update.Update.{Update};

    ghost Value = { List (List Update) };

    ghost view = { λ e. map arc_value e.versions.items };

    ghost use Rattle.kn_store.specs.Rooms.{HasRoom};

    ghost invariant = { HasRoom };
}

impl Earlier {
    pub(crate) fn empty(alloc: Global) -> Result<Earlier, NoMemory>
        ensures { IfOk result (λ earlier. earlier ≡ []) }
    {
        let mut versions = Reserved::new(alloc);
        versions.reserve(RETAINED_VERSIONS - 1)?;
        Ok(Earlier { versions })
    }

    /// The same versions, which are shared.
    pub(crate) fn share(&self, alloc: Global) -> Result<Earlier, NoMemory>
        ensures { IfOk result (λ earlier. earlier ≡ self.now) }
    {
        let mut versions = Reserved::new(alloc);
        versions.reserve(RETAINED_VERSIONS - 1)?;
        share_into(&mut versions, self.versions.as_slice())?;
        Ok(Earlier { versions })
    }

    /// How many versions there are.
    pub(crate) fn len(&self) -> u32
        ensures { result ≡ length self.now }
    {
        self.versions.len()
    }

    /// The version at this place, counted from 0.
    pub(crate) fn get(&self, place: u32) -> Option<&Snapshot>
        ensures { option_map (λ snapshot. arc_value snapshot.now) result ≡ slice_get self.now place }
    {
        self.versions.get(place)
    }

    /// Makes a version the last one. Where there are as many as there may be, the first one goes. Takes no memory.
    pub(crate) fn enter(&mut self, version: Snapshot)
        ensures { self.new ≡ with_version self.old (arc_value version) }
    {
        if self.versions.len() >= RETAINED_VERSIONS - 1 {
            let _first = self.versions.remove(0);
        }
        self.versions.put(version);
    }

    /// Makes a share of a version the last one, as `enter` does.
    pub(crate) fn keep(&mut self, alloc: Global, version: &Version) -> Result<(), NoMemory>
        ensures { OnOk result (self.new ≡ with_version self.old version.now) }
    {
        self.enter(version.share(alloc)?.into_snapshot(alloc)?);
        Ok(())
    }
}
