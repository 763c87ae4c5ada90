//! The texts of values that hold no elements (MongoDB Extended JSON v2, canonical form).

ghost use Rattle.std.specs.Prelude.{◌≡◌, ◌++◌, ◌∷◌, [], ◌-◌, ◌≤◌, length, List, ℕ};
ghost use Rattle.std.specs.Fmt.{decimal};
ghost use Rattle.base64.specs.Engines.{standard};
ghost use Rattle.base64.specs.GeneralPurpose.{encode_of};
ghost use Rattle.hex.specs.Hex.{encode_lower};
ghost use Rattle.fle_outside.specs.Writing.{WritesWhole};
ghost use Rattle.bson_tree.specs.Tree.{Items};
ghost use Rattle.bson_codec.specs.Layout.{IsRaw, IsItems, level_limit};
ghost use Rattle.ext_json.specs.Fixed.{middle_text};
ghost use Rattle.ext_json.specs.Forms.{form_layout};
ghost use Rattle.ext_json.specs.Quoted.{quoted};
ghost use Rattle.ext_json.specs.Text.{body_text, raw_text};

use crate::digits::{put_base64, put_byte, put_hex, put_signed, put_unsigned};
use crate::fixed::{head, middle, tail, truth};
use crate::form::Form;
use crate::parts::{
    increment_of, int32_of, int64_of, pointer_parts, regex_parts, seconds_of, text_of,
};
use crate::quoted::{put_escaped, put_quoted};
use fle_outside::{Failed, Sink, write_whole};

/// Writes a value of a form other than code with a scope.
pub fn put_raw<O: Sink>(form: Form, value: &[u8], out: &mut O) -> Result<(), Failed>
    requires { IsRaw (IsItems (level_limit - 1)) (form_layout form) value.now }
    ensures wrote { (D : Items → List ℕ) → (form ≡ Form.Scope → ⊥)
        → WritesWhole (O.seen out.old) (O.seen out.new) result (raw_text D form value.now) }
{
    match write_whole(out, head(form)) {
        Ok(()) => {}
        Err(Failed) => return Err(Failed),
    }
    match put_body(form, value, out) {
        Ok(()) => {}
        Err(Failed) => return Err(Failed),
    }
    write_whole(out, tail(form))
}

// What stands between the head and the tail.
#[tactic(auto, using(crate::proofs::Layouts::string_long, crate::proofs::Layouts::pointer_long))]
fn put_body<O: Sink>(form: Form, value: &[u8], out: &mut O) -> Result<(), Failed>
    requires { IsRaw (IsItems (level_limit - 1)) (form_layout form) value.now }
    ensures { (D : Items → List ℕ) → (form ≡ Form.Scope → ⊥)
        → WritesWhole (O.seen out.old) (O.seen out.new) result (body_text D form value.now) }
{
    match form {
        Form::DoubleBits | Form::ObjectId | Form::DecimalBits => put_hex(value, out),
        Form::Text => put_escaped(text_of(value), out),
        Form::Binary => put_binary(value[4], &value[5..], out),
        Form::Bool => write_whole(out, truth(value[0])),
        Form::Date | Form::Int64 => put_signed(int64_of(value), out),
        Form::Regex => put_regex(regex_parts(value), out),
        Form::Pointer => put_pointer(pointer_parts(value), out),
        Form::Code | Form::Symbol => put_quoted(text_of(value), out),
        Form::Int32 => put_signed(int32_of(value), out),
        Form::Timestamp => put_timestamp(seconds_of(value), increment_of(value), out),
        Form::Undefined | Form::Null | Form::MaxKey | Form::MinKey | Form::Scope => Ok(()),
    }
}

// The contents of a binary in base64, and the subtype as two hexadecimal digits.
fn put_binary<O: Sink>(subtype: u8, contents: &[u8], out: &mut O) -> Result<(), Failed>
    ensures { WritesWhole (O.seen out.old) (O.seen out.new) result
        (encode_of standard contents.now ++ (middle_text Form.Binary ++ encode_lower (subtype ∷ []))) }
{
    match put_base64(contents, out) {
        Ok(()) => {}
        Err(Failed) => return Err(Failed),
    }
    match write_whole(out, middle(Form::Binary)) {
        Ok(()) => {}
        Err(Failed) => return Err(Failed),
    }
    put_byte(subtype, out)
}

// The pattern and the options, each in quotes.
fn put_regex<O: Sink>(parts: (&[u8], &[u8]), out: &mut O) -> Result<(), Failed>
    ensures { WritesWhole (O.seen out.old) (O.seen out.new) result
        (quoted parts.entry.0.now ++ (middle_text Form.Regex ++ quoted parts.entry.1.now)) }
{
    let (pattern, options) = parts;
    match put_quoted(pattern, out) {
        Ok(()) => {}
        Err(Failed) => return Err(Failed),
    }
    match write_whole(out, middle(Form::Regex)) {
        Ok(()) => {}
        Err(Failed) => return Err(Failed),
    }
    put_quoted(options, out)
}

// The name space in quotes, and the id in hexadecimal digits.
fn put_pointer<O: Sink>(parts: (&[u8], &[u8]), out: &mut O) -> Result<(), Failed>
    requires { length parts.1.now ≤ 16 }
    ensures { WritesWhole (O.seen out.old) (O.seen out.new) result
        (quoted parts.entry.0.now ++ (middle_text Form.Pointer ++ encode_lower parts.entry.1.now)) }
{
    let (namespace, id) = parts;
    match put_quoted(namespace, out) {
        Ok(()) => {}
        Err(Failed) => return Err(Failed),
    }
    match write_whole(out, middle(Form::Pointer)) {
        Ok(()) => {}
        Err(Failed) => return Err(Failed),
    }
    put_hex(id, out)
}

// The seconds and the increment in decimal digits.
fn put_timestamp<O: Sink>(seconds: u32, increment: u32, out: &mut O) -> Result<(), Failed>
    ensures { WritesWhole (O.seen out.old) (O.seen out.new) result
        (decimal seconds ++ (middle_text Form.Timestamp ++ decimal increment)) }
{
    match put_unsigned(seconds, out) {
        Ok(()) => {}
        Err(Failed) => return Err(Failed),
    }
    match write_whole(out, middle(Form::Timestamp)) {
        Ok(()) => {}
        Err(Failed) => return Err(Failed),
    }
    put_unsigned(increment, out)
}
