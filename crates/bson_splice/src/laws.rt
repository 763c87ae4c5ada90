//! A law of what is put into documents. The function does nothing; its clause is the law.

ghost use Rattle.std.specs.Prelude.{◌≡◌, ℕ, List, Option, option_and_then};
ghost use Rattle.bson_tree.specs.Filled.{fill_items, filled};
ghost use Rattle.bson_tree.specs.Places.{start_of, value_at};
ghost use Rattle.bson_tree.specs.Tree.{Items, Tree};

/// What is put in by the places of values is what is put in by the offsets where they begin, in a document at
/// offset 0.
pub fn by_place()
    ensures place { (g : ℕ → Tree → Option Tree) (f : List ℕ → Option Tree) (is : Items)
        → ((place : List ℕ) → f place ≡ option_and_then (λ q. option_and_then (g q) (value_at place is))
        (start_of place is))
        → filled f is ≡ fill_items g 4 is }
{}
