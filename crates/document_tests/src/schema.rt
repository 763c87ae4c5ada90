//! Schemas, files of infos, paths and types (`encrypt_schema`).

mod collections_tests;
mod pointer_tests;
mod rows_tests;
mod rules_tests;
mod schema_tests;
mod stored_tests;
mod test_documents;
