//! Laws of the grammar of documents (BSON 1.1): what holds of all bytes and all trees. The functions do
//! nothing; their clauses are the laws.

ghost use Rattle.std.specs.Prelude.{◌≡◌, ◌≤◌, ◌↔◌, ◌++◌, ℕ, List, [], length, take, Some, Ok, IsOk};
ghost use Rattle.bson_tree.specs.Places.{place_of, start_of};
ghost use Rattle.bson_tree.specs.Spelling.{doc_bytes};
ghost use Rattle.bson_tree.specs.Tree.{Items};
ghost use Rattle.bson_codec.specs.Bytes.{AreBytes};
ghost use Rattle.bson_codec.specs.Layout.{IsDoc};
ghost use Rattle.bson_codec.specs.Reading.{IsReadBack, document, front_document};

/// Bytes are read without a fault exactly where they are the spelling of a document, and what is read is
/// that document.
pub fn no_fault_where_spelled()
    ensures tree { (bytes : List ℕ) (is : Items) → AreBytes bytes → (document bytes ≡ Ok is)
        ↔ (IsDoc is × (bytes ≡ doc_bytes is)) }
    ensures fault { (bytes : List ℕ) → AreBytes bytes → IsOk (document bytes)
        ↔ ((is : Items) × IsDoc is × (bytes ≡ doc_bytes is)) }
{}

/// A document is read back exactly where it has a spelling, and that is bytes.
pub fn read_back_where_spelled()
    ensures document { (is : Items) → IsReadBack is ↔ (IsDoc is × AreBytes (doc_bytes is)) }
{}

/// Bytes that begin with the spelling of a document are read as that document, with its length.
pub fn front_where_spelled()
    ensures read { (bytes rest : List ℕ) (is : Items) → IsDoc is → bytes ≡ doc_bytes is ++ rest
        → front_document bytes ≡ Ok (is, length (doc_bytes is)) }
{}

/// No two documents have the same spelling.
pub fn one_tree()
    ensures same { (is js : Items) → IsDoc is → IsDoc js → doc_bytes is ≡ doc_bytes js → is ≡ js }
{}

/// No spelling is a proper prefix of another one.
pub fn no_proper_prefix()
    ensures nothing_behind { (is js : Items) (rest : List ℕ) → IsDoc is → IsDoc js
        → doc_bytes is ≡ doc_bytes js ++ rest → rest ≡ [] }
{}

/// Values at distinct places begin at distinct offsets: the place of the offset at which a value begins is its own,
/// and that of offset 0 is the document itself.
pub fn one_place()
    ensures distinct { (is : Items) (place other : List ℕ) (at : ℕ) → start_of place is ≡ Some at
        → start_of other is ≡ Some at → place ≡ other }
    ensures begun { (is : Items) (place : List ℕ) (at : ℕ) → start_of place is ≡ Some at → place_of at is ≡ place }
    ensures head { (is : Items) → place_of 0 is ≡ [] }
{}
