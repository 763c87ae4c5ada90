//! MongoDB Extended JSON v2, "Conversion table", canonical form: the fixed parts of the texts of values.

ghost use Rattle.std.specs.Prelude.{◌≡◌, ◌∷◌, []};
ghost use Rattle.ext_json.specs.Fixed.{head_text, middle_text, tail_text, truth_text};
ghost use Rattle.ext_json.specs.Quoted.{quote_mark, control_start};
ghost use Rattle.ext_json.specs.Text.{opening_text, closing_text};

use crate::form::Form;

/// What a value of a form begins with.
#[tactic(auto, unfolding(crate::specs::Fixed::head_text))]
pub fn head(form: Form) -> &'static [u8]
    ensures text { result.now ≡ head_text form }
{
    match form {
        Form::DoubleBits => b"{\"$doubleBits\":\"",
        Form::Text => b"\"",
        Form::Binary => b"{\"$binary\":{\"base64\":\"",
        Form::Undefined => b"{\"$undefined\":true}",
        Form::ObjectId => b"{\"$oid\":\"",
        Form::Bool => b"",
        Form::Date => b"{\"$date\":{\"$numberLong\":\"",
        Form::Null => b"null",
        Form::Regex => b"{\"$regularExpression\":{\"pattern\":",
        Form::Pointer => b"{\"$dbPointer\":{\"$ref\":",
        Form::Code | Form::Scope => b"{\"$code\":",
        Form::Symbol => b"{\"$symbol\":",
        Form::Int32 => b"{\"$numberInt\":\"",
        Form::Timestamp => b"{\"$timestamp\":{\"t\":",
        Form::Int64 => b"{\"$numberLong\":\"",
        Form::DecimalBits => b"{\"$decimalBits\":\"",
        Form::MaxKey => b"{\"$maxKey\":1}",
        Form::MinKey => b"{\"$minKey\":1}",
    }
}

/// What stands between the two parts of a value of a form that has two.
#[tactic(auto, unfolding(crate::specs::Fixed::middle_text))]
pub fn middle(form: Form) -> &'static [u8]
    ensures text { result.now ≡ middle_text form }
{
    match form {
        Form::Binary => b"\",\"subType\":\"",
        Form::Regex => b",\"options\":",
        Form::Pointer => b",\"$id\":{\"$oid\":\"",
        Form::Scope => b",\"$scope\":",
        Form::Timestamp => b",\"i\":",
        _ => b"",
    }
}

/// What a value of a form ends with.
#[tactic(auto, unfolding(crate::specs::Fixed::tail_text))]
pub fn tail(form: Form) -> &'static [u8]
    ensures text { result.now ≡ tail_text form }
{
    match form {
        Form::DoubleBits | Form::ObjectId | Form::Int32 | Form::Int64 | Form::DecimalBits => b"\"}",
        Form::Text => b"\"",
        Form::Binary | Form::Date => b"\"}}",
        Form::Undefined | Form::Bool | Form::Null | Form::MaxKey | Form::MinKey => b"",
        Form::Regex | Form::Timestamp => b"}}",
        Form::Pointer => b"\"}}}",
        Form::Code | Form::Symbol | Form::Scope => b"}",
    }
}

/// The truth value of a byte.
#[tactic(auto, unfolding(crate::specs::Fixed::truth_text))]
pub fn truth(byte: u8) -> &'static [u8]
    ensures text { result.now ≡ truth_text byte }
{
    if byte == 0 { b"false" } else { b"true" }
}

/// The quotation mark.
#[tactic(auto, unfolding(crate::specs::Quoted::quote_mark))]
pub fn quote() -> &'static [u8]
    ensures text { result.now ≡ quote_mark }
{
    b"\""
}

/// What the two digits of a control character stand behind.
#[tactic(auto, unfolding(crate::specs::Quoted::control_start))]
pub fn control() -> &'static [u8]
    ensures text { result.now ≡ control_start }
{
    b"\\u00"
}

/// What a document (true) or an array (false) begins with.
pub fn opening(named: bool) -> &'static [u8]
    ensures text { result.now ≡ opening_text named }
{
    if named { b"{" } else { b"[" }
}

/// What a document (true) or an array (false) ends with.
pub fn closing(named: bool) -> &'static [u8]
    ensures text { result.now ≡ closing_text named }
{
    if named { b"}" } else { b"]" }
}

/// What stands between a name and its value.
pub fn colon() -> &'static [u8]
    ensures text { result.now ≡ 58 ∷ [] }
{
    b":"
}

/// What stands between two elements.
pub fn comma() -> &'static [u8]
    ensures text { result.now ≡ 44 ∷ [] }
{
    b","
}
