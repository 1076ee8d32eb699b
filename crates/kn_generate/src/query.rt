//! What is reported of the generator's query.
ghost use Rattle.std.specs.Prelude.{◌≡◌, ◌<◌, ◌≤◌, ◌∷◌, [], length, map, slice_get, None, Some, IfOk};
ghost use Rattle.kn_base.specs.declared.limits.TheConstants.{GENERATED_CREDENTIALS};
ghost use Rattle.std.specs.Arc.{arc_value};
ghost use Rattle.kn_env.specs.Environment.{AreRequesters};
ghost use Rattle.kn_meaning.specs.Equations.{Equations};
ghost use Rattle.kn_session.specs.Views.{numbered_text, AreReadPrivates, ArePrivates};
ghost use Rattle.kn_daemon.specs.Daemon.{equations_of};
ghost use Rattle.kn_answer.specs.Built.{IsBuilt};
ghost use Rattle.kn_generate.specs.Generated.{query_over, last_principal, generated_attributes, generated_values};
ghost use Rattle.kn_generate.specs.Measured.{granted_count, granted_count_at, IsMeasured};

use crate::text::principal;
use kn_answer::Built;
use kn_base::{List, NoMemory, Octets, Steps};
use kn_env::{Attributes, EnvFault, Values, ValuesFault};
use kn_query::build_query;
use kn_rows::Tally;
use kn_session::{Private, View};
use kn_settle::settle;
use kn_store::Snapshot;
use kn_system::{System, laws};
use std::alloc::Global;

/// What is reported of a query that was settled.
#[derive(Clone, Copy, PartialEq, Eq)]
pub struct Measured {
    /// The policy's level in the least fixed point, the lowest being 0.
    pub level: u8,
    /// How many principals have a level above the lowest and are no requesters.
    pub rows: u32,
    /// How many principals the system has.
    pub principals: u32,
    /// How many nodes its formulas have together, principals and gates.
    pub nodes: u32,
    /// How many principals stand in its formulas together.
    pub uses: u32,
    /// How many levels it has.
    pub levels: u8,
}

/// Settles the generator's query over a version, where the last of `count` principals requests.
///
/// `NoMemory` comes only when memory runs out.
pub fn measure(alloc: Global, snapshot: &Snapshot, count: u32) -> Result<Measured, NoMemory>
    requires some { 1 ≤ count }
    requires most { count ≤ GENERATED_CREDENTIALS }
    ensures measured { IfOk result (λ m. IsMeasured (query_over (arc_value snapshot.now) count) m) }
    ensures low { IfOk result (λ m. m.level < length generated_values) }
{
    let built = build_generated(alloc, snapshot, count)?;
    measure_built(alloc, &built)
}

/// Builds the system of the generator's query over a version, where the last of `count` principals requests.
///
/// `NoMemory` comes only when memory runs out.
pub fn build_generated(alloc: Global, snapshot: &Snapshot, count: u32) -> Result<Built, NoMemory>
    requires some { 1 ≤ count }
    requires most { count ≤ GENERATED_CREDENTIALS }
    ensures { IfOk result (λ built. IsBuilt (query_over (arc_value snapshot.now) count) built) }
{
    let values = values(alloc)?;
    let attributes = attributes(alloc)?;
    let requesters = requesters(alloc, count)?;
    let private = List::new(alloc);
    build_asked(alloc, snapshot, &private, &attributes, &requesters, &values)
}

/// The system of what a session with these asks over a version.
fn build_asked<'a>(
    alloc: Global,
    snapshot: &'a Snapshot,
    private: &'a List<Private>,
    attributes: &'a Attributes,
    requesters: &'a List<Octets>,
    values: &Values,
) -> Result<Built, NoMemory>
    requires privates { ArePrivates (map numbered_text private.now) }
    requires readings { AreReadPrivates private.now }
    requires requesters { AreRequesters requesters.now }
    ensures { IfOk result (λ built. IsBuilt (equations_of (record {
      number = 1;
      pinned = arc_value snapshot.now;
      privates = map numbered_text private.now;
      made = 0;
      attributes = attributes.now;
      requesters = requesters.now;
      standing = None;
    }) values.now) built) }
{
    let view = View {
        number: 1,
        made: 0,
        snapshot,
        private,
        attributes,
        requesters,
        standing: None,
    };
    build_query(alloc, &view, values)
}

/// The compliance values of the query.
fn values(alloc: Global) -> Result<Values, NoMemory>
    ensures { IfOk result (λ values. values ≡ generated_values) }
{
    match Values::of(alloc, b"v0,v1,v2,v3") {
        Ok(values) => Ok(values),
        Err(ValuesFault::NoMemory) => Err(NoMemory),
        Err(_) => unreachable!(),
    }
}

/// The name of a level of the query.
pub fn value_name(level: u8) -> &'static [u8]
    requires { level < length generated_values }
    ensures { slice_get generated_values level ≡ Some result.now }
{
    match level {
        0 => b"v0",
        1 => b"v1",
        2 => b"v2",
        _ => b"v3",
    }
}

/// The attributes of the query.
fn attributes(alloc: Global) -> Result<Attributes, NoMemory>
    ensures { IfOk result (λ attributes. attributes ≡ generated_attributes) }
{
    let mut attributes = Attributes::new(alloc);
    match attributes.set(b"level", b"5") {
        Ok(()) => Ok(attributes),
        Err(EnvFault::NoMemory) => Err(NoMemory),
        Err(_) => unreachable!(),
    }
}

/// The last of `count` principals, who requests.
fn requesters(alloc: Global, count: u32) -> Result<List<Octets>, NoMemory>
    requires some { 1 ≤ count }
    ensures { IfOk result (λ requesters. requesters ≡ last_principal count ∷ []) }
{
    let mut requesters = List::new(alloc);
    match requesters.push(principal(alloc, count - 1)?) {
        Ok(()) => Ok(requesters),
        Err(_) => Err(NoMemory),
    }
}

/// Settles the system of a query.
///
/// `NoMemory` comes only when memory runs out.
pub fn measure_built(alloc: Global, built: &Built) -> Result<Measured, NoMemory>
    ensures measured { (e : Equations) → IsBuilt e built.now → IfOk result (λ m. IsMeasured e m) }
    ensures low { IfOk result (λ m. m.level < built.now.system.levels) }
{
    let system = built.system();
    let settled = settle(alloc, system, &mut Steps::start(Tally))?;
    laws::least_levels_are_least();
    laws::rounds_keep_levels();
    let count = system.levels();
    let levels = settled.values.as_slice();
    Ok(Measured {
        level: levels[0],
        rows: count_granted(system, levels),
        principals: system.principals(),
        nodes: system.nodes(),
        uses: system.uses_total(),
        levels: count,
    })
}

/// How many principals have a level above the lowest and are no requesters.
fn count_granted(system: &System<Tally>, levels: &[u8]) -> u32
    requires one_each { length levels.now ≡ length system.now.requesters }
    ensures { result ≡ granted_count system.now.requesters levels.now }
{
    let mut count = 0;
    for principal in 0..system.principals() {
        count += count_if_granted(system, levels, principal);
    }
    count
}

/// 1 for a principal that has a level above the lowest and is no requester, and 0 for another.
#[tactic(auto, using(std::proofs::lemmas::Bool::Decides::nat_tests))]
fn count_if_granted(system: &System<Tally>, levels: &[u8], principal: u32) -> u32
    requires in_range { principal < length system.now.requesters }
    requires one_each { length levels.now ≡ length system.now.requesters }
    ensures one { result ≡ granted_count_at system.now.requesters levels.now principal }
    ensures few { result ≤ 1 }
{
    if !system.is_requester(principal) && levels[principal as usize] > 0 {
        1
    } else {
        0
    }
}
