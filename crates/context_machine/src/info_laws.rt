//! Laws of the info that is kept. The functions do nothing; their clauses are the laws.

ghost use Rattle.std.specs.Prelude.{◌≡◌, ℕ, List, None, true};
ghost use Rattle.bson_codec.specs.Borrowed.{At};
ghost use Rattle.command_marker.specs.Commands.{collection_in, is_marked_command, is_wide_command};
ghost use Rattle.context_machine.specs.Beginning.{fed_found};
ghost use Rattle.encrypt_schema.specs.Commands.More.{target_more_verdict};
ghost use Rattle.encrypt_schema.specs.Commands.Targets.{info_of};
ghost use Rattle.encrypt_schema.specs.Commands.Visits.{target_verdict};
ghost use Rattle.encrypt_schema.specs.Language.Collection.{Collection, collection_of};

/// Where the infos of a caller are asked for the collection of a marked command, what they have, handed in first, is
/// what is kept; and where no field of the command is refused by itself, it is the info that the verdict on the command
/// speaks of; so it is of a command that a library takes.
pub fn found_info()
    ensures kept { (infos : List Collection) (command : At)
        → fed_found (record { command = command; info = None }) (collection_of infos (collection_in command.tree))
        ≡ record { command = command; info = collection_of infos (collection_in command.tree) } }
    ensures found { (db : List ℕ) (infos : List Collection) (command : At)
        → target_verdict db command.start command.tree ≡ None → is_marked_command command.tree ≡ true
        → collection_of infos (collection_in command.tree) ≡ info_of infos command.tree }
    ensures more { (db : List ℕ) (infos : List Collection) (command : At)
        → target_more_verdict db command.start command.tree ≡ None → is_wide_command command.tree ≡ true
        → collection_of infos (collection_in command.tree) ≡ info_of infos command.tree }
{}
