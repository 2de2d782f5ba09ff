//! Laws, which follow from the definitions alone. These functions compute nothing; call one for
//! what it ensures.

ghost use Rattle.std.specs.Prelude.{◌≡◌, ◌⊎◌, ◌↔◌, ◌≤◌, ◌^◌, ℕ, List, Option, Some};
ghost use Rattle.std.specs.List.Sorted.{IsNonDecreasingBy};
ghost use Rattle.dcel_commands.specs.Conditions.{entry_number, AllMet, FirstUnmet, IsLeast, IsRefused};
ghost use Rattle.dcel_commands.specs.Edits.{edits_of, edits_of_run};
ghost use Rattle.dcel_commands.specs.Instructions.{Cleanup, Instruction, Remove, Saying};
ghost use Rattle.dcel_commands.specs.Lists.{Run, Takes};
ghost use Rattle.dcel_commands.specs.OneRemoval.{CleansUp, Closes, GoesOn, Opens, record_after};
ghost use Rattle.dcel_commands.specs.Queries.{query_asks};
ghost use Rattle.dcel_commands.specs.Refusal.{refusal_text};
ghost use Rattle.dcel_commands.specs.Responses.{Response};
ghost use Rattle.dcel_commands.specs.Spelling.{Spells};
ghost use Rattle.dcel_commands.specs.Steps.{asks, IsRefusal, Legal, Refuses};
ghost use Rattle.dcel_commands.specs.Rules.{State};
ghost use Rattle.dcel_commands.specs.Talk.{asked, Does};
ghost use Rattle.dcel_commands.specs.Triangles.{TrianglesStay};
ghost use Rattle.dcel_commands.specs.declared.commands.reply.Refused.{Refused};
ghost use Rattle.dcel_commands.specs.declared.refusal.Refusal.{Refusal};
ghost use Rattle.dcel_commands.specs.declared.refusal.Refusal.TheVariants.{OutOfMemory};
ghost use Rattle.dcel_commands.specs.declared.commands.query.Query.{Query};
ghost use Rattle.dcel_maps.specs.EditLists.{EditedBy};
ghost use Rattle.dcel_maps.specs.Removals.{opened_with};
ghost use Rattle.dcel_maps.specs.Shapes.{IsMesh, Mesh, Shape};

/// Orders conditions: those of each command and each query are in the order of their refusals'
/// numbers.
pub fn columns_ascend<V>()
    ensures commands { (limit : ℕ) (command : Instruction V) → IsNonDecreasingBy entry_number (asks limit command) }
    ensures queries { (query : Query) → IsNonDecreasingBy entry_number (query_asks query) }
{}

/// Relates refusals to conditions: the first condition that isn't met decides the refusal.
///
/// A command that is refused isn't legal, and its refusal has the least number among those of the
/// conditions that aren't met. The same is true of queries.
pub fn refusals_are_least<V>()
    ensures illegal { (s : Shape) (limit : ℕ) (command : Instruction V) (why : Refusal) → Refuses s limit command why → ¬ Legal s limit command }
    ensures least { (s : Shape) (limit : ℕ) (command : Instruction V) (why : Refusal) → Refuses s limit command why → IsLeast s (asks limit command) why }
    ensures unanswered { (s : Shape) (query : Query) (why : Refusal) → FirstUnmet s (query_asks query) why → ¬ AllMet s (query_asks query) }
    ensures least_of_query { (s : Shape) (query : Query) (why : Refusal) → FirstUnmet s (query_asks query) why → IsLeast s (query_asks query) why }
{
    columns_ascend::<V>();
}

/// Decides each command: it is legal, or there is exactly one refusal for it.
///
/// That is the refusal of the first condition that isn't met. Running out of memory refuses
/// commands that are legal, and no others. A query is answered, or refused as a command is.
pub fn a_command_is_legal_or_refused<V>()
    ensures commands { (s : Shape) (limit : ℕ) (command : Instruction V) → Legal s limit command ⊎ IsRefused s (asks limit command) }
    ensures memory { (s : Shape) (limit : ℕ) (command : Instruction V) (refused : Refused V) →
        IsRefusal s limit command refused → (refused.why ≡ OutOfMemory) ↔ Legal s limit command }
    ensures queries { (s : Shape) (query : Query) → AllMet s (query_asks query) ⊎ IsRefused s (query_asks query) }
{}

/// Keeps the mesh: a command or query with a condition that isn't met changes nothing.
///
/// The reply to it is the text of its refusal. A line with a list that isn't empty can also be
/// refused for lack of memory before its conditions are tested; this law isn't about that.
pub fn an_illegal_request_changes_nothing()
    ensures { (limit : ℕ) (old new : State) (said : Saying) (text : List ℕ) → let asks = asked limit said in
        Does limit old said text new → ¬ AllMet old.shape asks →
        (why : Refusal) × FirstUnmet old.shape asks why × (text ≡ refusal_text why) × (new ≡ old) }
{}

/// Makes lines unambiguous: a line is at most one command or query.
pub fn a_line_is_at_most_one_command()
    ensures { (p q : Saying) (line : List ℕ) → Spells p line → Spells q line → p ≡ q }
{}

/// Keeps triangles: if each live inner face is a triangle, it is so after a list of commands too.
///
/// The exceptions are commands that add a face beside a half edge of an inner face, or split one
/// side of an edge whose other half is on an inner face.
pub fn runs_keep_triangles<V, DE: Default, UE: Default, F: Default>()
    ensures { (limit : ℕ) (old new : Mesh V DE UE F) (commands : List (Instruction V)) (replies : List (Response V)) → IsMesh old →
        Run DE.is_default UE.is_default F.is_default limit old commands replies new →
        TrianglesStay DE.is_default UE.is_default F.is_default limit old commands replies new }
{}

/// Says which elementary edits a command is, and that a list of commands is theirs in order.
pub fn commands_are_lists_of_edits<V, DE: Default, UE: Default, F: Default>()
    ensures command { (limit : ℕ) (old new : Mesh V DE UE F) (command : Instruction V) (reply : Response V) → limit ≤ 2 ^ 31 → IsMesh old
        → Takes DE.is_default UE.is_default F.is_default limit old command reply new → EditedBy (edits_of old command reply) old new }
    ensures run { (limit : ℕ) (old new : Mesh V DE UE F) (commands : List (Instruction V)) (replies : List (Response V)) → limit ≤ 2 ^ 31 → IsMesh old
        → (run : Run DE.is_default UE.is_default F.is_default limit old commands replies new)
        → EditedBy (edits_of_run DE.is_default UE.is_default F.is_default limit old new commands replies run) old new }
{}

/// Says what each command does to the removal record.
///
/// A command that opens a removal records what it gives up. `Cleanup` leaves the vertex that is
/// still stored, or closes the removal if there is none. `Remove`, `Clear` and `Triangle` close it,
/// and all others leave it as it was.
pub fn records_are_written_by_few<V, DE: Default, UE: Default, F: Default>()
    ensures { (limit : ℕ) (old new : Mesh V DE UE F) (command : Instruction V) (reply : Response V) →
        Takes DE.is_default UE.is_default F.is_default limit old command reply new → new.shape.removal ≡ record_after old command }
{}

/// Relates the commands of a removal, whatever other commands come between them.
///
/// The reply to the command that opens it lists what the mesh has then given up. `Cleanup` takes
/// out these edges and faces, and its lists name them. After it `Remove` takes out the vertex that
/// was given up. Each of them keeps the live elements with their words, origins and data, under new
/// numbers.
pub fn a_removal_is_one_removal<V, DE: Default, UE: Default, F: Default>()
    ensures opened { (limit : ℕ) (before begun : Mesh V DE UE F) (edges faces : List ℕ) (vertex : Option ℕ) →
        Opens DE.is_default UE.is_default F.is_default limit before edges faces vertex begun →
        begun.shape.removal ≡ opened_with edges faces vertex }
    ensures cleaned { (limit : ℕ) (before begun middle cleaned : Mesh V DE UE F) (edges faces us fs : List ℕ) (vertex : Option ℕ) (reply : Response V) →
        Opens DE.is_default UE.is_default F.is_default limit before edges faces vertex begun →
        GoesOn DE.is_default UE.is_default F.is_default limit begun middle →
        Takes DE.is_default UE.is_default F.is_default limit middle (Cleanup us fs) reply cleaned →
        CleansUp middle edges faces us fs vertex cleaned }
    ensures closed { (limit : ℕ) (before begun middle cleaned later closed : Mesh V DE UE F) (edges faces us fs : List ℕ) (vertex given : ℕ) (reply last_reply : Response V) →
        Opens DE.is_default UE.is_default F.is_default limit before edges faces (Some vertex) begun →
        GoesOn DE.is_default UE.is_default F.is_default limit begun middle →
        Takes DE.is_default UE.is_default F.is_default limit middle (Cleanup us fs) reply cleaned →
        GoesOn DE.is_default UE.is_default F.is_default limit cleaned later →
        Takes DE.is_default UE.is_default F.is_default limit later (Remove given) last_reply closed →
        Closes later vertex given closed }
{}
