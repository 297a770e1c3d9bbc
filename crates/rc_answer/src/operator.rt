//! The printing form of operators that may skip their right side.

ghost use Rattle.rc_doc.specs.Terminals.Branches.{logical_operator_of};
ghost use Rattle.rc_flat.specs.ShownGraph.{logical_operator_data};

use crate::parts::Part;
use rc_hir::LogicalOperator;
use serde::Serializer;

impl Part for LogicalOperator {
    ghost reads = { logical_operator_of };

    ghost shows = { logical_operator_data };

    #[tactic(auto, using(crate::proofs::Cited::logical_operator_again, crate::proofs::Cited::text_sent), unfolding(crate::specs::inside::Cited::logical_operator_data))]
    fn send<S: Serializer>(&self, out: &mut S) -> Result<(), S::Error> {
        match self {
            LogicalOperator::And => out.str("And"),
            LogicalOperator::Or => out.str("Or"),
            LogicalOperator::Coalesce => out.str("Coalesce"),
        }
    }
}
