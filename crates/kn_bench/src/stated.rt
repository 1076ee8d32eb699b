//! The rows of which systems are built.
ghost use Rattle.std.specs.Prelude.{◌≡◌, ◌+◌, ◌-◌, ◌<◌, ◌≤◌, ◌^◌, All, IfOk, length};
ghost use Rattle.kn_bench.specs.Rows.{IsStated};
ghost use Rattle.kn_system.specs.Forms.{IsFormula};

use kn_base::{List, NoMemory};
use kn_system::{Piece, System};
use std::alloc::Global;

/// The mark of the steps.
#[derive(Debug, Drop)]
pub struct Mark;

/// How the rows of a system stand to each other.
#[derive(Debug, Clone, Copy, Drop)]
pub enum Shape {
    /// The policy licenses principal 1, and each the next one; the last is the requester.
    Worst,
    /// The same rows, the last one first.
    Best,
    /// Each row has a later principal, or two of three others.
    Mixed,
}

impl Shape {
    /// The word for it in the lines that are printed.
    pub fn name(self) -> &'static str {
        match self {
            Shape::Worst => "worst",
            Shape::Best => "best",
            Shape::Mixed => "mixed",
        }
    }
}

/// A row before it is pushed.
#[derive(Drop)]
pub struct Stated {
    pub authorizer: u32,
    pub ceiling: u8,
    pub formula: List<Piece>,
}

/// The number of levels.
const LEVELS: u8 = 4;

// The next number of a sequence (Knuth's generator of 64 bits), below a limit.
fn draw(seed: &mut u64, below: u32) -> u32
    requires { 0 < below }
    ensures { result < below }
{
    *seed = seed
        .wrapping_mul(6_364_136_223_846_793_005)
        .wrapping_add(1_442_695_040_888_963_407);
    ((*seed >> 33) % u64::from(below)) as u32
}

fn copy_pieces(alloc: Global, pieces: &[Piece]) -> Result<List<Piece>, NoMemory>
    ensures { IfOk result (λ copy. copy ≡ pieces.now) }
{
    let mut copy = List::new(alloc);
    for piece in pieces {
        match copy.push(*piece) {
            Ok(()) => {}
            Err(_) => return Err(NoMemory),
        }
    }
    Ok(copy)
}

// A row that has the next principal.
fn state_chain(alloc: Global, authorizer: u32, size: u32) -> Result<Stated, NoMemory>
    requires low { authorizer < size }
    requires most { size ≤ 4096 }
    ensures { IfOk result (IsStated size) }
{
    let formula = copy_pieces(alloc, &[Piece::Who(authorizer + 1)])?;
    Ok(Stated {
        authorizer,
        ceiling: LEVELS - 1,
        formula,
    })
}

// A row that has a later principal, or two of three others.
fn state_mixed(
    alloc: Global,
    authorizer: u32,
    size: u32,
    seed: &mut u64,
) -> Result<Stated, NoMemory>
    requires low { authorizer < size }
    requires most { size ≤ 4096 }
    ensures { IfOk result (IsStated size) }
{
    let ceiling = 1 + draw(seed, 3) as u8;
    let later = authorizer + 1 + draw(seed, size - authorizer);
    let first = draw(seed, size + 1);
    let second = draw(seed, size + 1);
    let third = draw(seed, size + 1);
    let pieces = [
        Piece::Gate { need: 1, count: 2 },
        Piece::Who(later),
        Piece::Gate { need: 2, count: 3 },
        Piece::Who(first),
        Piece::Who(second),
        Piece::Who(third),
    ];
    let formula = copy_pieces(alloc, &pieces)?;
    Ok(Stated {
        authorizer,
        ceiling,
        formula,
    })
}

// The row at a place.
fn state_row(
    alloc: Global,
    shape: Shape,
    place: u32,
    size: u32,
    seed: &mut u64,
) -> Result<Stated, NoMemory>
    requires low { place < size }
    requires most { size ≤ 4096 }
    ensures { IfOk result (IsStated size) }
{
    match shape {
        Shape::Worst => state_chain(alloc, place, size),
        Shape::Best => state_chain(alloc, size - 1 - place, size),
        Shape::Mixed => state_mixed(alloc, place, size, seed),
    }
}

/// As many rows as there are principals beside the policy.
pub fn state(alloc: Global, shape: Shape, size: u32) -> Result<Vec<Stated>, NoMemory>
    requires { size ≤ 4096 }
    ensures few { IfOk result (λ rows. length rows.items ≡ size) }
    ensures stated { IfOk result (λ rows. All (IsStated size) rows.items) }
{
    let mut seed = u64::from(size);
    let mut rows = Vec::new(alloc);
    for place in 0..size {
        let row = state_row(alloc, shape, place, size, &mut seed)?;
        match rows.push(row) {
            Ok(()) => {}
            Err(_) => return Err(NoMemory),
        }
    }
    Ok(rows)
}

/// The system of these rows over the policy and so many principals, of which the last is the requester.
pub fn build(alloc: Global, size: u32, rows: &[Stated]) -> Result<System<Mark>, NoMemory>
    requires most { size ≤ 4096 }
    requires few { length rows.now ≤ 4096 }
    requires stated { All (IsStated size) rows.now }
{
    let mut system = System::start(alloc, Mark, LEVELS);
    for before in 0..size {
        system.push_principal(before + 1 == size)?;
    }
    for row in rows {
        system.push_row(row.authorizer, row.ceiling, &row.formula)?;
    }
    Ok(system)
}
