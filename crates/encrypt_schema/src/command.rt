//! What stands in commands: why one is refused, which values are protected, and the walk that finds them.

pub(crate) mod listed;
pub(crate) mod marks;
pub(crate) mod operators;
pub(crate) mod pointers;
pub(crate) mod pointing;
pub(crate) mod reason;
pub(crate) mod stored;
pub(crate) mod walking;
