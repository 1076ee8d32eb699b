//! A query, with the assertions of which critical ones are searched.
ghost use Rattle.std.specs.Prelude.{◌≡◌};
ghost use Rattle.kn_answer.specs.Based.{condition_values};

use kn_answer::ConditionValues;
use kn_base::List;
use kn_env::Query;
use kn_rows::Part;

/// A query over assertions, and what gives the values of their conditions.
#[derive(Drop)]
pub(crate) struct Question<'c, 'q, 'p, V: ConditionValues> {
    pub(crate) query: &'c Query<'q>,
    pub(crate) list: &'c List<Part<'p>>,
    pub(crate) values: V,
    pub(crate) ghost each: { V.each values ≡ condition_values query.now list.now },
}
