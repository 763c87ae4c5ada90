//! Which fields of which collections are protected, and how: collection infos and their JSON schemas
//! with the keywords `encrypt` and `encryptMetadata` of the MongoDB Client Side Encryption specification.
//!
//! `Infos::load` reads a file of infos, and `Rows::read` one schema; each allocates, and tells the first
//! fault of what is refused. `info_of` finds a collection, `walk` and `step` go down a path with a cursor,
//! `class` says how the path stands to the rules, `policy` what a rule says, and `type_allowed` whether a value
//! may be stored under it; none of these allocates.
//!
//! ```text
//! let infos = Infos::load(alloc, &file)?;
//! let rows = infos.info_of(b"people")?.rows();
//! if let Class::Protected(i) = rows.class(rows.walk(b"a.b").at) { .. rows.policy(i) .. }
//! ```
//!
//! It doesn't judge documents against a schema, and doesn't judge commands: which of their values are protected
//! and why they are refused is defined in specs/, and read by the crates above.
#![tactic(auto)]

mod command;
pub mod laws;
mod path;
mod schema;

pub use command::listed::{FieldKind, Listed, OwnDocument};
pub use command::marks::{Mark, MarkFault, Marks, Role, Span};
pub use command::operators::{Operator, Subject};
pub use command::reason::Reason;
pub use command::stored::{type_allowed, type_allowed_under};
pub use command::walking::{JudgingPlace, Next, has_name, mark_elements, stands_before};
pub use path::class::Class;
pub use path::cursor::Cursor;
pub use path::dotted::{Walk, is_dollar, is_position};
pub use path::rows::Rows;
pub use schema::collections::{Info, Infos};
pub use schema::distinct::FEW;
pub use schema::faults::{InfoFault, InfoKind, SchemaFault};
pub use schema::names::is_named;
pub use schema::policy::{Algorithm, KeyRef, Policy, TypeSet};
pub use schema::shared_names::SharedNames;
