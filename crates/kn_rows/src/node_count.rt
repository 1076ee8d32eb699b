//! How many nodes the formulas of assertions have, without a system of them.
ghost use Rattle.std.specs.Prelude.{◌≡◌, ◌^◌, ◌<◌, map};
ghost use Rattle.kn_env.specs.Environment.{Asked};
ghost use Rattle.kn_trees.specs.Formulas.{formula_nodes, total};
ghost use Rattle.kn_meaning.specs.Critical.{equation_nodes, licensees_nodes};
ghost use Rattle.kn_meaning.specs.Equations.{equations_over};
ghost use Rattle.kn_rows.specs.Sizes.{HaveTexts};

use crate::parts::Part;
use kn_assert::Formula;
use kn_base::List;

/// The number of nodes of the formulas of assertions together, where missing Licensees are one node. The assertions are
/// those of texts that have at most 16,777,000 bytes together.
pub fn count_nodes(list: &List<Part<'_>>) -> u32
    requires { HaveTexts list.now }
    ensures { (asked : Asked) → result ≡ equation_nodes (equations_over asked list.now) }
{
    kn_assert::laws::readings_are_computed();
    kn_assert::laws::readings_are_sound();
    let mut nodes = 0;
    for part in list.as_slice() {
        nodes += nodes_of_licensees(&part.assertion.licensees);
    }
    nodes
}

// The nodes of a Licensees field. A missing one is a list of no parts.
fn nodes_of_licensees(licensees: &Option<Formula>) -> u32
    requires { licensees_nodes licensees.now < 2 ^ 24 }
    ensures { result ≡ licensees_nodes licensees.now }
{
    match licensees {
        Some(formula) => nodes_of_formula(formula),
        None => 1,
    }
}

#[cycle(nodes)]
fn nodes_of_formula(formula: &Formula) -> u32
    requires { formula_nodes formula.now < 2 ^ 24 }
    ensures { result ≡ formula_nodes formula.now }
{
    match formula {
        Formula::Who(_) => 1,
        Formula::All(parts) => 1 + nodes_of_parts(parts),
        Formula::Any(parts) => 1 + nodes_of_parts(parts),
        Formula::Threshold { need: _, list } => 1 + nodes_of_parts(list),
    }
}

#[cycle(nodes)]
fn nodes_of_parts(parts: &List<Formula>) -> u32
    requires { total (map formula_nodes parts.now) < 2 ^ 24 }
    ensures { result ≡ total (map formula_nodes parts.now) }
{
    let mut nodes = 0;
    for part in parts.as_slice() {
        nodes += nodes_of_formula(part);
    }
    nodes
}
