//! The assertions of a session by their ids.
ghost use Rattle.std.specs.Prelude.{◌≡◌, ◌≤◌, ◌++◌, drop, length, map, IfOk, OnOk};
ghost use Rattle.kn_proof.specs.declared.named.Id.TheVariants.{Shared};
ghost use Rattle.kn_session.specs.Views.{session_of_view, AreReadPrivates, ArePrivates};
ghost use Rattle.kn_history.specs.History.{credentials_of};
ghost use Rattle.kn_daemon.specs.Daemon.{session_parts, parts_of};
ghost use Rattle.kn_rows.specs.Numbering.{AreDistinct};
ghost use Rattle.kn_rows.specs.Sizes.{HaveTexts};
ghost use Rattle.kn_query.specs.SharedParts.{AreRead, private_parts};

use kn_base::{List, NoMemory};
use kn_proof::Id;
use kn_rows::Part;
use kn_session::laws::assertions_of_a_session;
use kn_session::{Private, View};
use kn_store::Version;
use std::alloc::Global;

/// What a session asks with: the credentials of the version that it is pinned to, in order of id, and then its private
/// assertions.
pub(crate) fn parts_of_view<'a>(alloc: Global, view: &View<'a>) -> Result<List<Part<'a>>, NoMemory>
    requires privates { ArePrivates (session_of_view view.now).privates }
    requires readings { AreReadPrivates view.now.private.now }
    ensures parts { IfOk result (λ parts. parts ≡ session_parts (session_of_view view.now)) }
    ensures texts { IfOk result (λ parts. HaveTexts parts) }
    ensures ids { IfOk result (λ parts. AreDistinct (map (λ part. part.id) parts)) }
{
    assertions_of_a_session();
    let version: &'a Version = view.snapshot;
    // The contract of `len` says that the credentials are within their limits, and that their ids ascend.
    let _live = version.len();
    let mut parts = List::new(alloc);
    push_shared(&mut parts, version, 0)?;
    push_private(&mut parts, view.private)?;
    Ok(parts)
}

/// Adds the credentials of a version from this place on, under their ids.
pub(crate) fn push_shared<'a>(
    parts: &mut List<Part<'a>>,
    version: &'a Version,
    first: u32,
) -> Result<(), NoMemory>
    requires { first ≤ length (credentials_of version.now) }
    ensures parts { OnOk result (parts.new ≡ parts.old ++ parts_of Shared (drop first (credentials_of version.now))) }
    ensures read { OnOk result (AreRead (drop first (credentials_of version.now))) }
{
    for place in first..version.len() {
        let part = Part {
            id: Id::Shared(version.id(place)),
            assertion: &version.credential(place).assertion,
        };
        parts.add(part)?;
    }
    Ok(())
}

/// Adds private assertions under their ids.
pub(crate) fn push_private<'a>(
    parts: &mut List<Part<'a>>,
    privates: &'a List<Private>,
) -> Result<(), NoMemory>
    requires readings { AreReadPrivates privates.now }
    ensures { OnOk result (parts.new ≡ parts.old ++ private_parts privates.now) }
{
    for private in privates.as_slice() {
        let part = Part {
            id: Id::Private(private.id),
            assertion: &private.assertion,
        };
        parts.add(part)?;
    }
    Ok(())
}
