//! Which names are among others.

ghost use Rattle.std.specs.Prelude.{◌↔◌, IsTrue, All, Contains};

use rc_names::DeclarationId;

/// Whether each of the names is one of the others.
pub(crate) fn are_among(names: &[DeclarationId], others: &[DeclarationId]) -> bool
    ensures { IsTrue result ↔ All (Contains others.now) names.now }
{
    for name in names {
        if !is_among(*name, others) {
            return false;
        }
    }
    true
}

/// Whether none of the names is one of the others.
pub(crate) fn are_outside(names: &[DeclarationId], others: &[DeclarationId]) -> bool
    ensures { IsTrue result ↔ All (λ name. ¬ Contains others.now name) names.now }
{
    for name in names {
        if is_among(*name, others) {
            return false;
        }
    }
    true
}

/// Whether the name is one of the others.
pub(crate) fn is_among(name: DeclarationId, others: &[DeclarationId]) -> bool
    ensures { IsTrue result ↔ Contains others.now name }
{
    others.contains(&name)
}
