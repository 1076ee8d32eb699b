//! What the fields state, read in their order in the text.
ghost use Rattle.std.specs.Prelude.{◌+◌, ◌≤◌, ◌<◌, length};
ghost use Rattle.kn_fields.specs.Fields.{tokens_in_span, fields_of};
ghost use Rattle.kn_assert.specs.Parts.{Gives};
ghost use Rattle.kn_assert.specs.Reading.{nothing, with_field, stated_by};

use crate::parts::{authorizer, conditions, licensees, signature};
use kn_base::Octets;
use kn_fields::{AUTHORIZER, CONDITIONS, Fields, Heading, LICENSEES, ReadFault, SIGNATURE};
use kn_trees::{Formula, Program};
use std::alloc::Global;

/// What the fields that were read state.
#[derive(Drop)]
pub struct Stated {
    pub authorizer: Option<Octets>,
    pub licensees: Option<Formula>,
    pub conditions: Option<Program>,
    pub signature: Option<Octets>,
}

/// What is stated with the field that stands here. Fields of other numbers state nothing.
fn with_field(
    alloc: Global,
    fields: &Fields<'_>,
    heading: Heading,
    stated: Stated,
) -> Result<Stated, ReadFault>
    requires before { heading.part.label < heading.part.end }
    requires within { heading.part.end ≤ length fields.now.tokens }
    ensures { Gives result (with_field fields.now.constants stated heading.number
        (tokens_in_span heading.part fields.now.tokens)) }
{
    let mut stated = stated;
    let part = heading.part;
    let Some(number) = heading.number else {
        return Ok(stated);
    };
    if number == AUTHORIZER {
        stated.authorizer = Some(authorizer(alloc, fields, part)?);
    } else if number == CONDITIONS {
        stated.conditions = conditions(alloc, fields, part)?;
    } else if number == LICENSEES {
        stated.licensees = licensees(alloc, fields, part)?;
    } else if number == SIGNATURE {
        stated.signature = signature(alloc, fields, part)?;
    }
    Ok(stated)
}

/// What the fields state, or the fault of the first one in the text that has one.
pub(crate) fn read_fields(alloc: Global, fields: &Fields<'_>) -> Result<Stated, ReadFault>
    ensures { Gives result (stated_by fields.now.constants nothing (fields_of fields.now.tokens)) }
{
    let mut stated = Stated {
        authorizer: None,
        licensees: None,
        conditions: None,
        signature: None,
    };
    for heading in fields.tokens.headings() {
        stated = with_field(alloc, fields, *heading, stated)?;
    }
    Ok(stated)
}
