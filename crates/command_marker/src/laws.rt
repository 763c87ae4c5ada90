//! What holds of roles, offences and verdicts whatever the rules and the commands (the definitions of
//! `encrypt_schema`). The functions do nothing; their clauses are the laws.

ghost use Rattle.std.specs.Prelude.{◌≡◌, ◌+◌, ◌∷◌, [], ℕ, List, Bool, Option, None, true, false, Some, length, map};
ghost use Rattle.std.specs.Prelude.{flat_map, is_some, option_map};
ghost use Rattle.std.specs.List.{list_all};
ghost use Rattle.std.specs.Option.{is_none, option_map_or};
ghost use Rattle.bson_codec.specs.Borrowed.{At};
ghost use Rattle.bson_tree.specs.Filled.{filled};
ghost use Rattle.bson_tree.specs.Places.{place_of, places, places_from};
ghost use Rattle.bson_tree.specs.Spelling.{doc_bytes};
ghost use Rattle.bson_tree.specs.Tree.{Items};
ghost use Rattle.encrypt_schema.specs.Commands.Chains.{is_shown, mark_of, offence_at, part_offence_at, part_station_at};
ghost use Rattle.encrypt_schema.specs.Commands.Chains.{part_visit_at, sites, station_at, use_of_mark, use_of_site};
ghost use Rattle.encrypt_schema.specs.Commands.Chains.{verdict_at, visit_at};
ghost use Rattle.encrypt_schema.specs.Language.Collection.{Collection};
ghost use Rattle.encrypt_schema.specs.Commands.More.{more_verdict};
ghost use Rattle.encrypt_schema.specs.Commands.Offences.{offence};
ghost use Rattle.encrypt_schema.specs.Language.Row.{Row};
ghost use Rattle.encrypt_schema.specs.Commands.Skeletons.{AreApart, blank, hole_at, holes, skeleton};
ghost use Rattle.encrypt_schema.specs.Commands.Stations.{Station, has_role};
ghost use Rattle.encrypt_schema.specs.Commands.Targets.{info_of, rows_of, verdict};
ghost use Rattle.encrypt_schema.specs.Commands.Visits.{Refusal, command_visits, content_verdict, roles, station_of};
ghost use Rattle.encrypt_schema.specs.Commands.Visits.{part_visits, text_in, texts};
ghost use Rattle.command_marker.specs.Commands.{passes};
ghost use Rattle.command_marker.specs.Marked.{marked};
ghost use Rattle.command_marker.specs.MarkedPlaces.{marking_of};
ghost use Rattle.command_marker.specs.Reply.{reply_clear_to, reply_to};
ghost use Rattle.payload6.specs.Needs.{need_of};
ghost use Rattle.command_marker.specs.ToldPlaces.{first_refused, told};

/// The values with a role of a command that begins at `at` come in reading order and apart: none twice, none inside
/// another. They are the holes of the skeleton, and no ancestor of a place with a role has one.
pub fn holes()
    ensures apart { (rows : List Row) (at : ℕ) (c : Items)
        → AreApart (at + 4) (roles rows at c) (at + length (doc_bytes c)) }
    ensures skeleton { (rows : List Row) (at : ℕ) (c : Items)
        → holes (at + 4) (skeleton rows c) ≡ map hole_at (roles rows at c) }
    ensures outermost { (rows : List Row) (c : Items) (place : List ℕ)
        → option_map_or has_role (station_at rows c place) false ≡ true → is_shown rows c place ≡ true }
{}

/// Noninterference: commands with equal skeletons have equal roles, equal offences at each place that lies below no
/// hole, whichever pass it belongs to, and equal verdicts, of a library too, told at equal places: what is refused, and
/// where, depends on protected values by their types, their lengths and whether they are binaries of subtype 06 alone.
pub fn two_worlds()
    ensures roles { (rows : List Row) (at : ℕ) (c d : Items) → skeleton rows c ≡ skeleton rows d
        → roles rows at c ≡ roles rows at d }
    ensures shown { (rows : List Row) (c d : Items) → skeleton rows c ≡ skeleton rows d → (place : List ℕ)
        → is_shown rows c place ≡ is_shown rows d place }
    ensures offences { (db : List ℕ) (info : Option Collection) (rows : List Row) (at : ℕ) (c d : Items)
        → skeleton rows c ≡ skeleton rows d
        → (place : List ℕ) → is_shown rows c place ≡ true
        → offence_at db info rows at c place ≡ offence_at db info rows at d place }
    ensures starts { (rows : List Row) (at : ℕ) (c d : Items) → skeleton rows c ≡ skeleton rows d → (place : List ℕ)
        → is_shown rows c place ≡ true
        → option_map (λ v. v.start) (visit_at rows at c place) ≡ option_map (λ v. v.start) (visit_at rows at d place) }
    ensures content { (rows : List Row) (at : ℕ) (c d : Items) → skeleton rows c ≡ skeleton rows d
        → content_verdict rows at c ≡ content_verdict rows at d }
    ensures collection { (collections : List Collection) (rows : List Row) (c d : Items)
        → skeleton rows c ≡ skeleton rows d → info_of collections c ≡ info_of collections d }
    ensures verdict { (db : List ℕ) (collections : List Collection) (at : ℕ) (c d : Items)
        → skeleton (rows_of collections c) c ≡ skeleton (rows_of collections c) d
        → verdict db collections at c ≡ verdict db collections at d }
    ensures library { (db : List ℕ) (collections : List Collection) (at : ℕ) (c d : Items)
        → skeleton (rows_of collections c) c ≡ skeleton (rows_of collections c) d
        → more_verdict db collections at c ≡ more_verdict db collections at d }
    ensures places { (db : List ℕ) (collections : List Collection) (c d : Items) (r : Refusal)
        → skeleton (rows_of collections c) c ≡ skeleton (rows_of collections c) d → verdict db collections 0 c ≡ Some r
        → place_of r.at c ≡ place_of r.at d }
{}

/// Commands that are equal but for blanks at their protected values have the same places with the same rules
/// and roles; and so have commands with equal skeletons.
pub fn equal_blanks()
    ensures sites { (rows : List Row) (c d : Items) → blank rows c ≡ blank rows d → sites rows c ≡ sites rows d }
    ensures blanks { (rows : List Row) (c d : Items) → skeleton rows c ≡ skeleton rows d → blank rows c ≡ blank rows d }
    ensures marks { (rows : List Row) (at : ℕ) (c : Items)
        → map use_of_mark (roles rows at c) ≡ map use_of_site (sites rows c) }
{}

/// The `name` of each mark is where the command has the text that names the mark's key, by its rule's pointer; there
/// is none where the rule has no pointer. Commands with equal skeletons have equal such texts, and so have commands
/// that are equal but for blanks at their protected values, wherever they begin. In a command whose contents aren't
/// refused each mark has what names its key, an id or such a text.
pub fn key_names()
    ensures texts { (rows : List Row) (at : ℕ) (c : Items)
        → map (λ m. option_map (text_in at (doc_bytes c)) m.name) (roles rows at c)
        ≡ texts rows (command_visits rows at c) }
    ensures worlds { (rows : List Row) (at : ℕ) (c d : Items) → skeleton rows c ≡ skeleton rows d
        → texts rows (command_visits rows at c) ≡ texts rows (command_visits rows at d) }
    ensures blanks { (rows : List Row) (at from : ℕ) (c d : Items) → blank rows c ≡ blank rows d
        → texts rows (command_visits rows at c) ≡ texts rows (command_visits rows from d) }
    ensures accepted { (rows : List Row) (d : At) → content_verdict rows d.start d.tree ≡ None
        → list_all (λ m. is_some (need_of rows d m)) (roles rows d.start d.tree) ≡ true }
{}

/// A command that passes unchanged has no value with a role and isn't refused; whatever rules there are, its reply has
/// both flags false and the command as it is.
pub fn passing()
    ensures roles { (rows : List Row) (at : ℕ) (c : Items) → passes c ≡ true → roles rows at c ≡ [] }
    ensures verdict { (db : List ℕ) (collections : List Collection) (at : ℕ) (c : Items) → passes c ≡ true
        → verdict db collections at c ≡ None }
    ensures reply { (rows : List Row) (c : Items) → passes c ≡ true → reply_to rows c ≡ reply_clear_to c }
{}

/// The places of a command that begins at `at`, each read from the chain of its ancestors, are the places that one
/// descent visits, in the same order; so are their stations, offences, roles and the verdict; and so are the places
/// inside a part, a document whose station is known. The marked command is the command with the marking of its value at
/// each place with a role. A command is accepted exactly where no place has an offence. In a command that begins at 0
/// the place of a refusal's offset is the first place that is refused, in the first pass that refuses one, and its
/// offence is the refusal's reason.
pub fn by_place()
    ensures visits { (rows : List Row) (at : ℕ) (c : Items)
        → map (visit_at rows at c) (places c) ≡ map Some (command_visits rows at c) }
    ensures stations { (rows : List Row) (at : ℕ) (c : Items)
        → map (station_at rows c) (places c) ≡ map (λ v. Some (station_of rows v)) (command_visits rows at c) }
    ensures offences { (db : List ℕ) (info : Option Collection) (rows : List Row) (at : ℕ) (c : Items)
        → map (offence_at db info rows at c) (places c)
        ≡ map (λ v. offence db info rows v.targets v.parent v.elder v.entry) (command_visits rows at c) }
    ensures roles { (rows : List Row) (at : ℕ) (c : Items) → roles rows at c ≡ flat_map (mark_of rows at c) (places c) }
    ensures parts { (rows : List Row) (s : Station) (at : ℕ) (is : Items)
        → map (part_visit_at rows s at is) (places_from 0 is) ≡ map Some (part_visits rows s at is) }
    ensures part_stations { (rows : List Row) (s : Station) (at : ℕ) (is : Items)
        → map (part_station_at rows s is) (places_from 0 is)
        ≡ map (λ v. Some (station_of rows v)) (part_visits rows s at is) }
    ensures part_offences { (db : List ℕ) (info : Option Collection) (rows : List Row) (s : Station) (at : ℕ)
        (is : Items)
        → map (part_offence_at db info rows s at is) (places_from 0 is)
        ≡ map (λ v. offence db info rows v.targets v.parent v.elder v.entry) (part_visits rows s at is) }
    ensures marked { (rows : List Row) (c : Items) → marked rows c ≡ filled (marking_of rows c) c }
    ensures verdict { (db : List ℕ) (collections : List Collection) (at : ℕ) (c : Items)
        → verdict db collections at c ≡ verdict_at db (info_of collections c) (rows_of collections c) at c }
    ensures accepted { (db : List ℕ) (collections : List Collection) (at : ℕ) (c : Items)
        → is_none (verdict db collections at c) ≡ list_all is_none
        (map (offence_at db (info_of collections c) (rows_of collections c) at c) (places c)) }
    ensures refused { (db : List ℕ) (collections : List Collection) (c : Items) (r : Refusal)
        → verdict db collections 0 c ≡ Some r
        → offence_at db (info_of collections c) (rows_of collections c) 0 c (place_of r.at c) ≡ Some r.reason }
    ensures told { (db : List ℕ) (collections : List Collection) (c : Items)
        → option_map (told c) (verdict db collections 0 c)
        ≡ first_refused db (info_of collections c) (rows_of collections c) c (places c) }
{}
