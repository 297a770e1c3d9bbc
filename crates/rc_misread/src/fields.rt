//! The fields of each form.

ghost use Rattle.std.specs.Prelude.{◌≡◌, map, option_map};
ghost use Rattle.rc_misread.specs.Fields.{binding_fields, fields_of, identifier_name_fields, jsx_attribute_fields};
ghost use Rattle.rc_misread.specs.Fields.{jsx_tag_fields, pattern_fields, place_or_spread_fields, primitive_fields};
ghost use Rattle.rc_misread.specs.Fields.{property_fields, property_key_fields, property_literal_fields};
ghost use Rattle.rc_misread.specs.Fields.{shape_fields, type_fields};
ghost use Rattle.rc_misread.specs.Forms.{row_of};

use crate::form::{Field, Form, Need};
use crate::kinds::value_fields;
use crate::terminals::terminal_fields;

/// The fields of a value of this form, in the order in which they are read; of a form with variants those of the
/// variant with that tag, if there is one.
pub(crate) fn fields_of(form: Form, tag: &str) -> Option<&'static [Field]>
    ensures { option_map (λ fields. map row_of fields.now) result ≡ fields_of form tag.now }
{
    match form {
        Form::Number
        | Form::Flag
        | Form::Text
        | Form::Span
        | Form::Place
        | Form::InstructionKind
        | Form::LogicalOperator
        | Form::GotoVariant
        | Form::Blocks => Some(&[]),
        Form::Spread => Some(&[Field("place", Need::Required, Form::Place)]),
        Form::Param => place_or_spread_fields(tag),
        Form::Argument => place_or_spread_fields(tag),
        Form::LValue => Some(&[
            Field("kind", Need::Required, Form::InstructionKind),
            Field("place", Need::Required, Form::Place),
        ]),
        Form::PropertyLiteral => property_literal_fields(tag),
        Form::PropertyKey => property_key_fields(tag),
        Form::ObjectProperty => Some(&[
            Field("key", Need::Required, Form::PropertyKey),
            Field("place", Need::Required, Form::Place),
        ]),
        Form::Property => property_fields(tag),
        Form::PatternElement => place_or_spread_fields(tag),
        Form::Element => place_or_spread_fields(tag),
        Form::Pattern => pattern_fields(tag),
        Form::LValuePattern => Some(&[
            Field("kind", Need::Required, Form::InstructionKind),
            Field("pattern", Need::Required, Form::Pattern),
        ]),
        Form::PrimitiveValue => primitive_fields(tag),
        Form::Binding => binding_fields(tag),
        Form::JsxTag => jsx_tag_fields(tag),
        Form::JsxAttribute => jsx_attribute_fields(tag),
        Form::LoweredFunction => Some(&[Field("func", Need::Required, Form::Number)]),
        Form::InstructionValue => value_fields(tag),
        Form::Case => Some(&[
            Field("test", Need::Optional, Form::Place),
            Field("block", Need::Required, Form::Number),
        ]),
        Form::Terminal => terminal_fields(tag),
        Form::Instruction => Some(&[
            Field("id", Need::Required, Form::Number),
            Field("lvalue", Need::Required, Form::Place),
            Field("value", Need::Required, Form::InstructionValue),
            Field("span", Need::Optional, Form::Span),
        ]),
        Form::Block => Some(&[
            Field("id", Need::Required, Form::Number),
            Field("instructions", Need::List, Form::Number),
            Field("terminal", Need::Required, Form::Terminal),
            Field("key", Need::Optional, Form::Number),
        ]),
        Form::Graph => Some(&[
            Field("entry", Need::Required, Form::Number),
            Field("blocks", Need::Required, Form::Blocks),
        ]),
        Form::Function => Some(&[
            Field("span", Need::Optional, Form::Span),
            Field("id", Need::Optional, Form::Text),
            Field("name_hint", Need::Optional, Form::Text),
            Field("params", Need::List, Form::Param),
            Field("generator", Need::Flag, Form::Flag),
            Field("is_async", Need::Flag, Form::Flag),
            Field("context", Need::List, Form::Place),
            Field("body", Need::Required, Form::Graph),
            Field("instructions", Need::List, Form::Instruction),
            Field("directives", Need::List, Form::Text),
        ]),
        Form::IdentifierName => identifier_name_fields(tag),
        Form::Identifier => Some(&[
            Field("declaration_id", Need::Required, Form::Number),
            Field("name", Need::Optional, Form::IdentifierName),
            Field("scope", Need::Optional, Form::Number),
            Field("type_", Need::Required, Form::Number),
            Field("span", Need::Optional, Form::Span),
        ]),
        Form::Shape => shape_fields(tag),
        Form::Type => type_fields(tag),
        Form::ShapeRow => Some(&[
            Field("hook", Need::Flag, Form::Flag),
            Field("no_alias", Need::Flag, Form::Flag),
        ]),
        Form::Range => Some(&[
            Field("start", Need::Required, Form::Number),
            Field("end", Need::Required, Form::Number),
        ]),
        Form::PathEntry => Some(&[
            Field("property", Need::Required, Form::PropertyLiteral),
            Field("optional", Need::Flag, Form::Flag),
        ]),
        Form::Dependency => Some(&[
            Field("identifier", Need::Required, Form::Number),
            Field("reactive", Need::Flag, Form::Flag),
            Field("path", Need::List, Form::PathEntry),
            Field("span", Need::Optional, Form::Span),
        ]),
        Form::Declaration => Some(&[
            Field("identifier", Need::Required, Form::Number),
            Field("scope", Need::Required, Form::Number),
        ]),
        Form::DeclarationEntry => Some(&[
            Field("key", Need::Required, Form::Number),
            Field("value", Need::Required, Form::Declaration),
        ]),
        Form::EarlyReturn => Some(&[
            Field("value", Need::Required, Form::Number),
            Field("span", Need::Optional, Form::Span),
            Field("label", Need::Required, Form::Number),
        ]),
        Form::Scope => Some(&[
            Field("range", Need::Required, Form::Range),
            Field("dependencies", Need::List, Form::Dependency),
            Field("declarations", Need::List, Form::DeclarationEntry),
            Field("reassignments", Need::List, Form::Number),
            Field("early_return_value", Need::Optional, Form::EarlyReturn),
            Field("merged", Need::List, Form::Number),
        ]),
        Form::Config => Some(&[
            Field("enable_forest", Need::Flag, Form::Flag),
            Field(
                "enable_preserve_existing_memoization_guarantees",
                Need::Flag,
                Form::Flag,
            ),
        ]),
        Form::Environment => Some(&[
            Field("identifiers", Need::List, Form::Identifier),
            Field("types", Need::List, Form::Type),
            Field("scopes", Need::List, Form::Scope),
            Field("functions", Need::List, Form::Function),
            Field("shapes", Need::List, Form::ShapeRow),
            Field("config", Need::Required, Form::Config),
            Field("next_block", Need::Required, Form::Number),
        ]),
        Form::Document => Some(&[
            Field("hir", Need::Required, Form::Function),
            Field("env", Need::Required, Form::Environment),
        ]),
    }
}

/// The fields of a place or spread with this variant.
fn place_or_spread_fields(tag: &str) -> Option<&'static [Field]>
    ensures { option_map (λ fields. map row_of fields.now) result ≡ place_or_spread_fields tag.now }
{
    match tag {
        "Place" => Some(&[Field("v", Need::Required, Form::Place)]),
        "Spread" => Some(&[Field("v", Need::Required, Form::Spread)]),
        _ => None,
    }
}

/// The fields of a name of a property with this variant.
fn property_literal_fields(tag: &str) -> Option<&'static [Field]>
    ensures { option_map (λ fields. map row_of fields.now) result ≡ property_literal_fields tag.now }
{
    match tag {
        "String" => Some(&[Field("v", Need::Required, Form::Text)]),
        "Number" => Some(&[Field("v", Need::Required, Form::Text)]),
        _ => None,
    }
}

/// The fields of a key of a property with this variant.
fn property_key_fields(tag: &str) -> Option<&'static [Field]>
    ensures { option_map (λ fields. map row_of fields.now) result ≡ property_key_fields tag.now }
{
    match tag {
        "Identifier" => Some(&[Field("v", Need::Required, Form::Text)]),
        "String" => Some(&[Field("v", Need::Required, Form::Text)]),
        "Number" => Some(&[Field("v", Need::Required, Form::Text)]),
        "Computed" => Some(&[Field("v", Need::Required, Form::Place)]),
        _ => None,
    }
}

/// The fields of an entry of an object with this variant.
fn property_fields(tag: &str) -> Option<&'static [Field]>
    ensures { option_map (λ fields. map row_of fields.now) result ≡ property_fields tag.now }
{
    match tag {
        "Property" => Some(&[Field("v", Need::Required, Form::ObjectProperty)]),
        "Spread" => Some(&[Field("v", Need::Required, Form::Spread)]),
        _ => None,
    }
}

/// The fields of a pattern with this variant.
fn pattern_fields(tag: &str) -> Option<&'static [Field]>
    ensures { option_map (λ fields. map row_of fields.now) result ≡ pattern_fields tag.now }
{
    match tag {
        "Array" => Some(&[Field("items", Need::List, Form::PatternElement)]),
        "Object" => Some(&[Field("properties", Need::List, Form::Property)]),
        _ => None,
    }
}

/// The fields of a literal with this variant.
fn primitive_fields(tag: &str) -> Option<&'static [Field]>
    ensures { option_map (λ fields. map row_of fields.now) result ≡ primitive_fields tag.now }
{
    match tag {
        "Boolean" => Some(&[Field("v", Need::Flag, Form::Flag)]),
        "Number" => Some(&[Field("v", Need::Required, Form::Text)]),
        "String" => Some(&[Field("v", Need::Required, Form::Text)]),
        _ => None,
    }
}

/// The fields of a name from outside the function with this variant.
fn binding_fields(tag: &str) -> Option<&'static [Field]>
    ensures { option_map (λ fields. map row_of fields.now) result ≡ binding_fields tag.now }
{
    match tag {
        "Global" => Some(&[Field("name", Need::Required, Form::Text)]),
        "Module" => Some(&[
            Field("name", Need::Required, Form::Text),
            Field("module", Need::Required, Form::Text),
        ]),
        _ => None,
    }
}

/// The fields of a tag of a JSX element with this variant.
fn jsx_tag_fields(tag: &str) -> Option<&'static [Field]>
    ensures { option_map (λ fields. map row_of fields.now) result ≡ jsx_tag_fields tag.now }
{
    match tag {
        "Place" => Some(&[Field("v", Need::Required, Form::Place)]),
        "Builtin" => Some(&[Field("v", Need::Required, Form::Text)]),
        _ => None,
    }
}

/// The fields of an attribute of a JSX element with this variant.
fn jsx_attribute_fields(tag: &str) -> Option<&'static [Field]>
    ensures { option_map (λ fields. map row_of fields.now) result ≡ jsx_attribute_fields tag.now }
{
    match tag {
        "Attribute" => Some(&[
            Field("name", Need::Required, Form::Text),
            Field("place", Need::Required, Form::Place),
        ]),
        "SpreadAttribute" => Some(&[Field("argument", Need::Required, Form::Place)]),
        _ => None,
    }
}

/// The fields of a name of an identifier with this variant.
fn identifier_name_fields(tag: &str) -> Option<&'static [Field]>
    ensures { option_map (λ fields. map row_of fields.now) result ≡ identifier_name_fields tag.now }
{
    match tag {
        "Named" => Some(&[Field("v", Need::Required, Form::Text)]),
        "Promoted" => Some(&[Field("v", Need::Required, Form::Text)]),
        _ => None,
    }
}

/// The fields of a shape with this variant.
fn shape_fields(tag: &str) -> Option<&'static [Field]>
    ensures { option_map (λ fields. map row_of fields.now) result ≡ shape_fields tag.now }
{
    match tag {
        "Row" => Some(&[Field("v", Need::Required, Form::Number)]),
        _ => None,
    }
}

/// The fields of a type of an identifier with this variant.
fn type_fields(tag: &str) -> Option<&'static [Field]>
    ensures { option_map (λ fields. map row_of fields.now) result ≡ type_fields tag.now }
{
    match tag {
        "Object" => Some(&[Field("shape", Need::Optional, Form::Shape)]),
        "Function" => Some(&[Field("shape", Need::Optional, Form::Shape)]),
        _ => None,
    }
}
