//! The scope of an identifier and the range of a scope.

ghost use Rattle.std.specs.Prelude.{◌≡◌};
ghost use Rattle.rc_checks.specs.Membership as spec;

use rc_hir::{Environment, Fault, MutableRange, TableName};
use rc_names::{IdentifierId, ScopeId};

/// The scope of an identifier; `BadName` comes where the identifier is outside its table.
pub fn scope_of(env: &Environment, number: IdentifierId) -> Result<Option<ScopeId>, Fault>
    ensures { result ≡ spec.scope_of env.now number }
{
    match env.identifiers.get(number) {
        Some(identifier) => Ok(identifier.scope),
        None => Err(Fault::BadName {
            table: TableName::Identifiers,
            index: number.0,
        }),
    }
}

/// The range of a scope; `BadName` comes where the scope is outside its table.
pub fn range_of(env: &Environment, number: ScopeId) -> Result<MutableRange, Fault>
    ensures { result ≡ spec.range_of env.now number }
{
    match env.scopes.get(number) {
        Some(scope) => Ok(scope.range),
        None => Err(Fault::BadName {
            table: TableName::Scopes,
            index: number.0,
        }),
    }
}
