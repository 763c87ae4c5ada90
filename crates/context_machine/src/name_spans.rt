//! Where texts stand that name keys which are needed already. What stands in one place of a command is one text,
//! however long it is: so places are compared first, and texts only where no text stood in the place before.

ghost use Rattle.std.specs.Prelude.{◌≡◌, ◌==◌, false, if◌then◌else◌, OnOk};
ghost use Rattle.context_machine.specs.NameSpans.{has_span};
ghost use Rattle.encrypt_schema.specs.declared.command.marks.Span.{Span as SpanSeen};

use encrypt_schema::Span;
use fle_outside::Memory;
use std::alloc::Global;
use std::collections::BTreeMap;

/// Where texts stand.
#[derive(Drop)]
pub(crate) struct NameSpans {
    /// Their ends, by where they begin.
    ends: BTreeMap<u32, u32>,
}

impl NameSpans {
    /// No text. It allocates nothing.
    pub(crate) fn new(alloc: Global) -> NameSpans
        ensures none { (span : SpanSeen) → has_span result span ≡ false }
    {
        NameSpans {
            ends: BTreeMap::new(alloc),
        }
    }

    /// Whether a text stands there.
    pub(crate) fn has(&self, span: Span) -> bool
        ensures has { result ≡ has_span self.now span }
    {
        match self.ends.get(&span.start) {
            Some(end) => *end == span.end,
            None => false,
        }
    }

    /// A text stands there, in place of one that begins there too.
    pub(crate) fn add(&mut self, span: Span) -> Result<(), Memory>
        ensures put { OnOk result ((other : SpanSeen) → has_span self.new other
            ≡ (if span.start == other.start then span.end == other.end else has_span self.old other)) }
    {
        match self.ends.insert(span.start, span.end) {
            Ok(_) => Ok(()),
            Err(_) => Err(Memory),
        }
    }
}
