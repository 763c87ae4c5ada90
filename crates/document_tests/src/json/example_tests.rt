//! The schemas of the folder `examples`, in JSON and in BSON: both give the same infos. A name stands in JSON's BSON in
//! the order of bytes, so the two are compared by the text of what the BSON holds.

use bson_codec::first_doc;
use ext_json::{infos_from_json, write_text};
use fle_outside::MemSink;
use sample_documents::{PEOPLE, STAFF_INFO, VIEW_INFO};
use std::alloc::Global;

// examples/people.schemas.json
const PEOPLE_JSON: &[u8] = br#"[
  {
    "name": "people",
    "type": "collection",
    "options": {
      "validator": {
        "$jsonSchema": {
          "bsonType": "object",
          "properties": {
            "ssn": {
              "encrypt": {
                "keyId": [{"$uuid": "00112233-4455-4677-8899-aabbccddeeff"}],
                "algorithm": "AEAD_AES_256_CBC_HMAC_SHA_512-Deterministic",
                "bsonType": "string"
              }
            },
            "salary": {
              "encrypt": {
                "keyId": [{"$uuid": "00112233-4455-4677-8899-aabbccddeeff"}],
                "algorithm": "AEAD_AES_256_CBC_HMAC_SHA_512-Random"
              }
            }
          }
        }
      }
    }
  }
]
"#;

// examples/staff.schemas.json
const STAFF_JSON: &[u8] = br#"[
  {
    "name": "staff",
    "type": "collection",
    "options": {
      "validator": {
        "$jsonSchema": {
          "properties": {
            "a": {
              "bsonType": "object",
              "encryptMetadata": {
                "keyId": [{"$binary": {"base64": "ABEiM0RVRneImaq7zN3u/w==", "subType": "04"}}],
                "algorithm": "AEAD_AES_256_CBC_HMAC_SHA_512-Deterministic"
              },
              "properties": {
                "b": {
                  "encrypt": {
                    "bsonType": "int"
                  }
                }
              }
            }
          }
        }
      }
    }
  },
  {
    "name": "v",
    "type": "view",
    "options": {}
  }
]
"#;

/// Puts the text of the document at the front behind the text; the bytes behind that document.
fn put_front<'a>(alloc: Global, bytes: &'a [u8], text: &mut Vec<u8>) -> Option<&'a [u8]> {
    if bytes.len() >= 1000 {
        return None;
    }
    let (document, rest) = first_doc(bytes).ok()?;
    let mut out = MemSink::new(alloc, 1000, 1000, Vec::new(alloc)).ok()?;
    write_text(&document, &mut out).ok()?;
    text.extend_from_slice(out.written()).ok()?;
    Some(rest)
}

/// The text of the array of so many documents, which stand one after another in the bytes.
fn text_of(alloc: Global, bytes: &[u8], documents: usize) -> Option<Vec<u8>> {
    let mut left = bytes;
    let mut text = Vec::from_slice(alloc, b"[").ok()?;
    for number in 0..documents {
        if number > 0 {
            text.push(b',').ok()?;
        }
        left = put_front(alloc, left, &mut text)?;
    }
    if !left.is_empty() {
        return None;
    }
    text.push(b']').ok()?;
    Some(text)
}

/// Whether the JSON and the text of so many documents, which stand in the bytes, give the same infos, of as many bytes.
fn are_same(alloc: Global, json: &[u8], bson: &[u8], documents: usize) -> bool {
    let Some(text) = text_of(alloc, bson, documents) else {
        return false;
    };
    let Ok(infos) = infos_from_json(alloc, json) else {
        return false;
    };
    infos.len() == bson.len()
        && matches!(infos_from_json(alloc, &text), Ok(again) if again.as_slice() == infos.as_slice())
}

// examples/people.schemas.bson
#[test]
fn the_people_are_the_same(rt: HostRuntime) {
    assert!(rt; are_same(rt.alloc(), PEOPLE_JSON, PEOPLE, 1));
}

// examples/staff.schemas.bson
#[test]
fn the_staff_is_the_same(rt: HostRuntime) {
    let mut bson = Vec::from_slice(rt.alloc(), STAFF_INFO).expect(&rt, "no memory");
    bson.extend_from_slice(VIEW_INFO).expect(&rt, "no memory");
    assert!(rt; are_same(rt.alloc(), STAFF_JSON, &bson, 2));
}
