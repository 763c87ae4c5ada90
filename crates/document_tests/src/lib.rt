//! Tests of the outside, documents, rules and texts: of the public calls of `fle_outside`, `bson_tree`, `bson_codec`,
//! `bson_splice`, `data_key`, `encrypt_schema`, `filter_rules`, `update_rules` and `ext_json` (BSON 1.1, bsonspec.org).
//!
//! They stand in a crate of their own since a crate with tests is proved once more for them.
#![tactic(auto)]

#[cfg(test)]
mod codec;
#[cfg(test)]
mod filter_tests;
#[cfg(test)]
mod json;
#[cfg(test)]
mod key_document_tests;
#[cfg(test)]
mod outside_tests;
#[cfg(test)]
mod schema;
#[cfg(test)]
mod splice_tests;
#[cfg(test)]
mod tree_tests;
#[cfg(test)]
mod update_tests;
