//! The bases that are kept from one query to the next.
ghost use Rattle.std.specs.Prelude.{◌≡◌, ◌<◌, ◌≤◌, true, List as ListOf, None, Ok, length, take, IfOk, IfSome, OnOk};
ghost use Rattle.kn_history.specs.declared.update.Update.{Update};
ghost use Rattle.kn_meaning.specs.Equations.{IsPolicyLevel, equations_over};
ghost use Rattle.kn_meaning.specs.Proofs.{IsProof};
ghost use Rattle.kn_query.specs.KeptBases.{EachKept, IsKeptIn, IsKeptOrOf};
ghost use Rattle.kn_query.specs.SharedBases.{HasCredentials, IsOfHistory, IsOfVersion};
ghost use Rattle.kn_query.specs.SharedParts.{shared_parts};
ghost use Rattle.kn_query.specs.Steady.{Covers, KeepsLevel};

use crate::shared_base::SharedBase;
use kn_answer::Answer;
use kn_base::NoMemory;
use kn_env::Query;
use kn_store::Version;
use std::alloc::Global;
use std::mem;

/// The bases of shared credentials that are kept from one query to the next: that of the version that was asked last,
/// and one of another version. So sessions that stand at two versions may ask by turns.
pub struct KeptBases {
    recent: Option<SharedBase>,
    other: Option<SharedBase>,
}

// Written out, so that a crate that drops bases rests on this proof.
impl Drop for KeptBases {
    fn drop(self) {
        let KeptBases { recent, other } = self;
    }
}

impl KeptBases {
    /// No base is kept.
    pub fn new() -> KeptBases
        ensures recent { result.recent ≡ None }
        ensures other { result.other ≡ None }
    {
        KeptBases {
            recent: None,
            other: None,
        }
    }

    /// Takes the base of a version, or the one of the last version before it, which follows it; or else one is built.
    /// None where it would be too large to be kept. What is left is kept as the other base, and none as the one that
    /// was asked last.
    ///
    /// `NoMemory` comes only when memory runs out.
    pub(crate) fn take_or_build(
        &mut self,
        alloc: Global,
        version: &Version,
    ) -> Result<Option<SharedBase>, NoMemory>
        requires of_history { EachKept (IsOfHistory version.now) self.old }
        ensures of_version { IfOk result (λ base. IfSome base (IsOfVersion version.now)) }
        ensures recent { self.new.recent ≡ None }
        ensures other { IfSome self.new.other (IsKeptIn self.old) }
    {
        if let Some(shared) = self.take_nearest(version.number()) {
            if let Some(followed) = shared.follow(alloc, version)? {
                return Ok(Some(followed));
            }
        }
        SharedBase::of(alloc, version)
    }

    /// The answer to a query over the credentials of a version from the base that was asked last, which stays in its
    /// place; None where that is of no base or of another version.
    ///
    /// `NoMemory` comes only when memory runs out. The base goes where it became too large to be kept.
    pub(crate) fn answer_recent(
        &mut self,
        alloc: Global,
        version: &Version,
        query: &Query<'_>,
    ) -> Option<Result<Answer, NoMemory>>
        requires of_history { EachKept (IsOfHistory version.now) self.old }
        ensures proof { IfSome result (λ answer. IfOk answer (λ a.
            IsProof (equations_over query.now (shared_parts version.now)) a.rows a.value)) }
        ensures least { IfSome result (λ answer. IfOk answer (λ a.
            IsPolicyLevel (equations_over query.now (shared_parts version.now)) a.value)) }
        ensures below { IfSome result (λ answer. IfOk answer (λ a. a.value < length query.now.values)) }
        ensures of_version { IfSome result (λ answer. IfSome self.new.recent (IsOfVersion version.now)) }
        ensures other { self.new.other ≡ self.old.other }
        ensures none { result ≡ None → self.new ≡ self.old }
    {
        let answer = answer_in_place(&mut self.recent, alloc, version, query)?;
        drop_large(&mut self.recent);
        Some(answer)
    }

    /// Whether it is known that the policy has the same level over the version of this earlier number, whatever is
    /// asked, as over this one. The nearest base follows the version for it, and none is built.
    ///
    /// `NoMemory` comes only when memory runs out.
    pub(crate) fn is_steady_since(
        &mut self,
        alloc: Global,
        version: &Version,
        earlier: u32,
    ) -> Result<bool, NoMemory>
        requires of_history { EachKept (IsOfHistory version.now) self.old }
        ensures steady { IfOk result (λ steady. steady ≡ true → KeepsLevel (take earlier version.now) version.now) }
        ensures itself { earlier ≡ length version.now → result ≡ Ok true }
        ensures all { IfOk result (λ steady.
            IfSome self.new.recent (λ shared. Covers shared.steady earlier → steady ≡ true)) }
        ensures of_version { EachKept (IsKeptOrOf version.now self.old) self.new }
    {
        if earlier == version.number() {
            return Ok(true);
        }
        self.follow_to(alloc, version)?;
        match &self.recent {
            Some(shared) => Ok(shared.is_steady_since(earlier)),
            None => Ok(false),
        }
    }

    // Has the base that is nearest to a version follow it. It becomes the one that was asked last, and where there is
    // none, none does.
    fn follow_to(&mut self, alloc: Global, version: &Version) -> Result<(), NoMemory>
        requires of_history { EachKept (IsOfHistory version.now) self.old }
        ensures recent { OnOk result (IfSome self.new.recent (IsOfVersion version.now)) }
        ensures of_version { EachKept (IsKeptOrOf version.now self.old) self.new }
    {
        if has_number(&self.recent, version.number()) {
            return Ok(());
        }
        if let Some(shared) = self.take_nearest(version.number()) {
            self.recent = shared.follow(alloc, version)?;
        }
        Ok(())
    }

    /// Keeps a base as the one that was asked last, where it is small enough.
    pub(crate) fn keep(&mut self, shared: SharedBase)
        ensures recent { (version : ListOf Update) → HasCredentials version shared
            → IfSome self.new.recent (IsOfVersion version) }
        ensures other { self.new.other ≡ self.old.other }
    {
        self.recent = shared.into_kept();
    }

    // Takes the base of this number, or the one of the highest number below it. Where there is none, the one that was
    // asked last stays.
    fn take_nearest(&mut self, number: u32) -> Option<SharedBase>
        ensures taken { IfSome result (λ shared. IsKeptIn self.old shared × (shared.number ≤ number)) }
        ensures recent { self.new.recent ≡ None }
        ensures other { IfSome self.new.other (IsKeptIn self.old) }
    {
        let recent = nearness(&self.recent, number);
        let other = nearness(&self.other, number);
        if recent > 0 && recent >= other {
            return self.recent.take();
        }
        let spare = self.recent.take();
        if other > 0 {
            return mem::replace(&mut self.other, spare);
        }
        if spare.is_none() {
            return None;
        }
        self.other = spare;
        None
    }
}

// The answer of a base where it is of this version. It is moved by no answer: it is large.
fn answer_in_place(
    kept: &mut Option<SharedBase>,
    alloc: Global,
    version: &Version,
    query: &Query<'_>,
) -> Option<Result<Answer, NoMemory>>
    requires of_history { IfSome kept.old (IsOfHistory version.now) }
    ensures proof { IfSome result (λ answer. IfOk answer (λ a.
        IsProof (equations_over query.now (shared_parts version.now)) a.rows a.value)) }
    ensures least { IfSome result (λ answer. IfOk answer (λ a.
        IsPolicyLevel (equations_over query.now (shared_parts version.now)) a.value)) }
    ensures below { IfSome result (λ answer. IfOk answer (λ a. a.value < length query.now.values)) }
    ensures credentials { IfSome result (λ answer. IfSome kept.new (HasCredentials version.now)) }
    ensures none { result ≡ None → kept.new ≡ kept.old }
{
    match kept {
        Some(shared) if shared.number() == version.number() => Some(shared.answer(alloc, query)),
        _ => None,
    }
}

// Whether there is a base, and of the version of this number.
fn has_number(kept: &Option<SharedBase>, number: u32) -> bool
    ensures is { result ≡ true → IfSome kept.now (λ shared. shared.number ≡ number) }
    ensures all { IfSome kept.now (λ shared. shared.number ≡ number → result ≡ true) }
{
    match kept {
        Some(shared) => shared.number() == number,
        None => false,
    }
}

// Takes a base away that became too large to be kept.
fn drop_large(kept: &mut Option<SharedBase>)
    ensures { (version : ListOf Update) → IfSome kept.old (HasCredentials version)
        → IfSome kept.new (IsOfVersion version) }
{
    match kept {
        Some(shared) if !shared.is_small() => *kept = None,
        _ => {}
    }
}

// 0 where there is no base up to this number, and else the higher the nearer it is to it.
fn nearness(kept: &Option<SharedBase>, number: u32) -> u32
    ensures { 0 < result → IfSome kept.now (λ shared. shared.number ≤ number) }
{
    match kept {
        Some(shared) if shared.number() <= number => shared.number().saturating_add(1),
        _ => 0,
    }
}
