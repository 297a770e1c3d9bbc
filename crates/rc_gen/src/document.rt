//! The whole document.

ghost use Rattle.std.specs.Prelude.{◌≡◌, ◌≤◌, IfOk};
ghost use Rattle.rc_gen.specs.Generated.{generated, generated_function, most_units};

use crate::blocks::blocks;
use crate::parts::place;
use crate::rows::rows;
use crate::tables::environment;
use rc_doc::Doc;
use rc_hir::{Hir, HirFunction, ParamPattern};
use rc_names::{BlockId, List};
use std::alloc::{AllocError, Global};

/// Returns the generated document of a number of units, at most 2,000. Fails only when out of memory.
pub fn generate(alloc: Global, n: u32) -> Result<Doc, AllocError>
    requires { n ≤ most_units }
    ensures { IfOk result (λ doc. doc ≡ generated n) }
{
    Ok(Doc {
        hir: function(alloc, n)?,
        env: environment(alloc, n)?,
    })
}

/// The function of a number of units.
fn function(alloc: Global, units: u32) -> Result<HirFunction, AllocError>
    requires { units ≤ most_units }
    ensures { IfOk result (λ hir. hir ≡ generated_function units) }
{
    let params = List::from_slice(alloc, &[ParamPattern::Place(place(0, false))])?;
    let instructions = rows(alloc, units)?;
    let blocks = blocks(alloc, units)?;
    Ok(HirFunction {
        span: None,
        id: None,
        name_hint: None,
        params,
        generator: false,
        is_async: false,
        context: List::new(alloc),
        body: Hir {
            entry: BlockId::new(0),
            blocks,
        },
        instructions,
        directives: List::new(alloc),
    })
}
