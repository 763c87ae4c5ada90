//! The names of a new key.

ghost use Rattle.std.specs.Prelude.{◌≡◌, Bool, not, nat_lt, map, string_bytes};
ghost use Rattle.data_key.specs.Written.{size_of};
ghost use Rattle.fle_words.specs.Words.{are_names, each_once, times};

/// A new key has at most this many names.
const MAX_NAMES: usize = 1000;

/// They have at most this many bytes together.
const MAX_NAME_BYTES: usize = 15_999_840;

/// Whether these are the names of a new key.
pub fn are_names(names: &[String]) -> bool
    ensures names { result ≡ are_names (map string_bytes names.now) }
{
    names.len() <= MAX_NAMES && are_small(names) && each_once(names)
}

/// Whether the names have few enough bytes together.
fn are_small(names: &[String]) -> bool
    ensures small { result ≡ not (nat_lt 15999840 (size_of (map string_bytes names.now))) }
{
    let mut left = MAX_NAME_BYTES;
    for name in names {
        if left < name.len() {
            return false;
        }
        left -= name.len();
    }
    true
}

/// Whether no name is empty, and each stands once.
fn each_once(names: &[String]) -> bool
    ensures once { result ≡ each_once (map string_bytes names.now) (map string_bytes names.now) }
{
    for name in names {
        if name.is_empty() || times(name.as_str(), names) != 1 {
            return false;
        }
    }
    true
}

/// How many of the names are this one.
fn times(name: &str, names: &[String]) -> usize
    ensures times { result ≡ times name.now (map string_bytes names.now) }
{
    let mut n = 0;
    for other in names {
        if name == other.as_str() {
            n += 1;
        }
    }
    n
}
