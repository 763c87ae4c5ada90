//! The parts of raw values (BSON 1.1).

ghost use Rattle.std.specs.Prelude.{◌≡◌, ◌≤◌, length, take, drop};
ghost use Rattle.ext_json.specs.Parts as spec;

/// The text of the bytes of a string.
pub fn text_of<'a>(bytes: &'a [u8]) -> &'a [u8]
    requires { 5 ≤ length bytes.now }
    ensures text { result.now ≡ spec.text_of bytes.now }
{
    let (_, ended) = bytes.split_at(4);
    let (text, _) = ended.split_at(bytes.len() - 5);
    text
}

/// The name space and the id of the bytes of a pointer.
pub fn pointer_parts<'a>(bytes: &'a [u8]) -> (&'a [u8], &'a [u8])
    requires { 17 ≤ length bytes.now }
    ensures namespace { result.0.now ≡ spec.namespace_of bytes.now }
    ensures id { result.1.now ≡ spec.id_of bytes.now }
{
    let (string, id) = bytes.split_at(bytes.len() - 12);
    (text_of(string), id)
}

/// The pattern and the options of the bytes of a regular expression.
pub fn regex_parts<'a>(bytes: &'a [u8]) -> (&'a [u8], &'a [u8])
    ensures pattern { result.0.now ≡ spec.pattern_of bytes.now }
    ensures options { result.1.now ≡ spec.options_of bytes.now }
{
    let (pattern, rest) = split_at_zero(bytes);
    let (options, _) = split_at_zero(rest);
    (pattern, options)
}

// The bytes before the first 00 and those behind it; all and none where there is no 00.
fn split_at_zero<'a>(bytes: &'a [u8]) -> (&'a [u8], &'a [u8])
    ensures before { result.0.now ≡ spec.before_zero bytes.now }
    ensures after { result.1.now ≡ spec.after_zero bytes.now }
{
    let n = zero_position(bytes);
    let (before, rest) = bytes.split_at(n);
    (before, behind_first(rest))
}

// Where the first 00 stands, or the number of bytes where there is none.
#[tactic(auto, using(crate::proofs::Zeros::zeros))]
fn zero_position(bytes: &[u8]) -> usize
    ensures within { result ≤ length bytes.now }
    ensures before { spec.before_zero bytes.now ≡ take result bytes.now }
    ensures after { spec.after_zero bytes.now ≡ drop 1 (drop result bytes.now) }
{
    let mut n = 0;
    while n < bytes.len() {
        if bytes[n] == 0 {
            return n;
        }
        n += 1;
    }
    n
}

// The bytes behind the first one, if there is one.
fn behind_first<'a>(bytes: &'a [u8]) -> &'a [u8]
    ensures { result.now ≡ drop 1 bytes.now }
{
    match bytes {
        [] => bytes,
        [_, rest @ ..] => rest,
    }
}

/// The number of 4 bytes.
pub fn int32_of(bytes: &[u8]) -> i64
    requires { length bytes.now ≡ 4 }
    ensures number { result ≡ spec.int32_of bytes.now }
{
    i32::from_le_bytes([bytes[0], bytes[1], bytes[2], bytes[3]]) as i64
}

/// The number of 8 bytes.
pub fn int64_of(bytes: &[u8]) -> i64
    requires { length bytes.now ≡ 8 }
    ensures number { result ≡ spec.int64_of bytes.now }
{
    i64::from_le_bytes([
        bytes[0], bytes[1], bytes[2], bytes[3], bytes[4], bytes[5], bytes[6], bytes[7],
    ])
}

/// The seconds of a timestamp.
pub fn seconds_of(bytes: &[u8]) -> u32
    requires { length bytes.now ≡ 8 }
    ensures seconds { result ≡ spec.seconds_of bytes.now }
{
    u32::from_le_bytes([bytes[4], bytes[5], bytes[6], bytes[7]])
}

/// The increment of a timestamp.
pub fn increment_of(bytes: &[u8]) -> u32
    requires { length bytes.now ≡ 8 }
    ensures increment { result ≡ spec.increment_of bytes.now }
{
    u32::from_le_bytes([bytes[0], bytes[1], bytes[2], bytes[3]])
}
