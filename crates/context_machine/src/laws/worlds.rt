//! Noninterference: what is asked, drawn and written for two commands that differ in protected values alone.

ghost use Rattle.std.specs.Prelude.{◌≡◌, ◌+◌, ℕ, List, length};
ghost use Rattle.bson_codec.specs.Borrowed.{At};
ghost use Rattle.bson_tree.specs.Spelling.{doc_bytes};
ghost use Rattle.bson_tree.specs.Tree.{Items};
ghost use Rattle.command_marker.specs.Commands.{collection_in};
ghost use Rattle.encrypt_schema.specs.Commands.Skeletons.{blank, skeleton};
ghost use Rattle.encrypt_schema.specs.Commands.Visits.{roles};
ghost use Rattle.encrypt_schema.specs.Language.Row.{Row};
ghost use Rattle.doc_rewrite.specs.Keys.{Lookup};
ghost use Rattle.doc_rewrite.specs.SealedCommand.{IsSealedCommand};
ghost use Rattle.doc_rewrite.specs.Sites.{draws_of, grown, sites_of};
ghost use Rattle.context_machine.specs.Asks.{collection_filter, key_filter};
ghost use Rattle.context_machine.specs.Blanked.{blanked};
ghost use Rattle.context_machine.specs.Needs.{first_needs, ids_of, names_of, needs_alone};
ghost use Rattle.context_machine.specs.Rings.{needs_of};

/// Commands with equal skeletons need the same keys at the same places, so they ask alike for their collection and for
/// their keys; as many random blocks are drawn for them, and their sealed forms have as many bytes, under whichever
/// keys. What is asked, drawn and measured depends on protected values by their types, their lengths and whether they
/// are binaries of subtype 06 alone.
pub fn two_worlds()
    ensures needs { (rows : List Row) (c d : At) → c.start ≡ d.start → skeleton rows c.tree ≡ skeleton rows d.tree
        → needs_of rows c ≡ needs_of rows d }
    ensures collection { (rows : List Row) (c d : Items) → skeleton rows c ≡ skeleton rows d
        → collection_in c ≡ collection_in d }
    ensures collection_filter { (rows : List Row) (c d : Items) → skeleton rows c ≡ skeleton rows d
        → collection_filter (collection_in c) ≡ collection_filter (collection_in d) }
    ensures key_filter { (rows : List Row) (c d : At) → c.start ≡ d.start → skeleton rows c.tree ≡ skeleton rows d.tree
        → key_filter (ids_of (first_needs (needs_of rows c))) (names_of (first_needs (needs_of rows c)))
        ≡ key_filter (ids_of (first_needs (needs_of rows d))) (names_of (first_needs (needs_of rows d))) }
    ensures draws { (rows : List Row) (c d : At) → c.start ≡ d.start → skeleton rows c.tree ≡ skeleton rows d.tree
        → draws_of (sites_of rows c (roles rows c.start c.tree))
        ≡ draws_of (sites_of rows d (roles rows d.start d.tree)) }
    ensures size { (rows : List Row) (c d : At) → c.start ≡ d.start → skeleton rows c.tree ≡ skeleton rows d.tree
        → length (doc_bytes c.tree) + grown (sites_of rows c (roles rows c.start c.tree))
        ≡ length (doc_bytes d.tree) + grown (sites_of rows d (roles rows d.start d.tree)) }
    ensures outputs { (keys others : Lookup) (rows : List Row) (c d sealed_c sealed_d : Items)
        → skeleton rows c ≡ skeleton rows d
        → IsSealedCommand keys rows c sealed_c → IsSealedCommand others rows d sealed_d
        → length (doc_bytes sealed_c) ≡ length (doc_bytes sealed_d) }
{}

/// Commands that are equal but for blanks at their protected values need the same keys in the same order, and as many
/// random blocks are drawn for them, wherever they begin. Whatever they are sealed to, under whichever keys: with a
/// blank at each protected place, the one and the other are equal.
pub fn equal_blanks()
    ensures needs { (rows : List Row) (c d : At) → blank rows c.tree ≡ blank rows d.tree
        → needs_alone (needs_of rows c) ≡ needs_alone (needs_of rows d) }
    ensures first_needs { (rows : List Row) (c d : At) → blank rows c.tree ≡ blank rows d.tree
        → needs_alone (first_needs (needs_of rows c)) ≡ needs_alone (first_needs (needs_of rows d)) }
    ensures draws { (rows : List Row) (c d : At) → blank rows c.tree ≡ blank rows d.tree
        → draws_of (sites_of rows c (roles rows c.start c.tree))
        ≡ draws_of (sites_of rows d (roles rows d.start d.tree)) }
    ensures sealed { (keys others : Lookup) (rows : List Row) (c d sealed_c sealed_d : Items)
        → blank rows c ≡ blank rows d
        → IsSealedCommand keys rows c sealed_c → IsSealedCommand others rows d sealed_d
        → blanked rows c sealed_c ≡ blanked rows d sealed_d }
{}
