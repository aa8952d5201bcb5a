//! Laws of what the lines of a script bring, and so of the maps to which a script leads.
ghost use Rattle.std.specs.Prelude.{◌≡◌, ◌≤◌, ◌++◌, ℕ, Bool, List, length, Option, Ok, IsUtf8};
ghost use Rattle.journal_core.specs.History.{History, IsAt};
ghost use Rattle.rdl_tree.specs.View.{items_of};
ghost use Rattle.rdl_tree.specs.declared.description.Item.{Item};
ghost use Rattle.rdl_tree.specs.declared.path.Segment.{Segment};
ghost use Rattle.rdl_parse.specs.Faults.{max_text};
ghost use Rattle.rdl_parse.specs.FirstFault.{parse_reading};
ghost use Rattle.rdl_parse.specs.Places.{Located};
ghost use Rattle.rdl_rewrite.specs.declared.edit.Edit.{Edit};
ghost use Rattle.rdl_rewrite.specs.declared.edit.Edit.TheVariants.{Add};
ghost use Rattle.rdl_rewrite.specs.declared.place.Place.{Place};
ghost use Rattle.rdl_write.specs.Texts.{newline};
ghost use Rattle.rdl_edit.specs.Step.{State};
ghost use Rattle.rdl_script.specs.Commands.{edit, add, command_of};
ghost use Rattle.rdl_run.specs.Answers.{Serves};
ghost use Rattle.rdl_run.specs.Opening.{OpensHistory, EachElaborates};
ghost use Rattle.rdl_run.specs.Output.{Output, RunsScript};
ghost use Rattle.rdl_run.specs.Readings.{ReadsItems};
ghost use Rattle.rdl_run.specs.declared.run.Options.{Options};
ghost use Rattle.rdl_round.specs.Writable.{ReadsBack};
ghost use Rattle.run_laws.specs.Found.{EditedTextsAreFound, EditedTextsKeepOrder, MapsStayFirst};
ghost use Rattle.run_laws.specs.Histories.{Action, Follows, BringWords, ScriptLeads, AllReadBack, AllWritable, AllHaveOption};
ghost use Rattle.run_laws.specs.NewParts.{BringsWords};
ghost use Rattle.run_laws.specs.Stops.{SpellsHistory, OpensAgain, SavesSession, GoesOnFromMap, SavesAfterStops, GoesOnAlike, LeavesSameFiles, joined};

/// The edit that a line asks for brings only what is made of words and what a text can spell. Of an `add` the text has to
/// be read first: with the items that it spells, whichever they are, this is so of the `add` too.
pub fn script_edits_bring_words()
    ensures of_edit { (line : List ℕ) (e : Edit) → command_of line ≡ edit e → BringsWords e }
    ensures of_add { (line : List ℕ) (path : List Segment) (place : Place) (text : List ℕ) (items : List Item) → command_of line ≡ add path place text
        → ReadsItems text items → BringsWords (Add path place (items_of items)) }
{}

/// So the lines of a script do nothing to a history but accepted edits, undos and redos, and these bring only words.
pub fn scripts_bring_words()
    ensures { (old new : History State) (lines : List (List ℕ)) (text : List ℕ) (refuses : Bool) → Serves old lines text refuses new
        → (actions : List Action) × BringWords actions × Follows old actions new }
{}

/// A history of maps that can be written and read back stays one, whatever the lines of a script say.
pub fn scripts_keep_maps_writable()
    ensures { (old new : History State) (lines : List (List ℕ)) (text : List ℕ) (refuses : Bool) → AllWritable old → Serves old lines text refuses new → AllWritable new }
{}

/// Each map of a history that was opened can be written and read back, be it opened by a map or by a session.
pub fn opened_maps_are_writable()
    ensures { (option : Option (List ℕ)) (limit : ℕ) (bytes : List ℕ) (first : History State) → OpensHistory option limit bytes first → AllWritable first }
{}

/// So from a map or a session that was opened each map to which a script leads reads back: that at the place, those before
/// it, and those that can be redone. The text that a run leaves as its map is read as the map to which the script led, so it
/// isn't too long.
pub fn runs_read_back()
    ensures all { (option : Option (List ℕ)) (limit : ℕ) (bytes script : List ℕ) (last : History State) → ScriptLeads option limit bytes script last → AllReadBack last }
    ensures current { (option : Option (List ℕ)) (limit : ℕ) (bytes script : List ℕ) (last : History State) (now : State) → ScriptLeads option limit bytes script last
        → IsAt last now → ReadsBack now.description }
    ensures short { (options : Options) (map script : List ℕ) (out : Output) → RunsScript options map script out → length out.rdl ≤ max_text }
    ensures written { (options : Options) (map script : List ℕ) (out : Output) (ran : RunsScript options map script out)
        → (p : Located) × (parse_reading out.rdl ≡ Ok (ran.runs.closes.now.description, p)) }
{}

/// The text of a map stays a text of the first map of its history. So a run on a map never ends with K2: there is an edited text where it
/// is asked for, unless it is too long or memory runs out. It is the map's own, or keeps the order of what no edit touched or moved.
pub fn edited_texts_are_found()
    ensures first { MapsStayFirst }
    ensures found { EditedTextsAreFound }
    ensures order { EditedTextsKeepOrder }
{}

/// All maps of a history that was opened, and all to which a script leads from it, have the option of the run.
pub fn options_stay()
    ensures opened { (option : Option (List ℕ)) (limit : ℕ) (bytes : List ℕ) (first : History State) → OpensHistory option limit bytes first → AllHaveOption option first }
    ensures served { (option : Option (List ℕ)) (old new : History State) (lines : List (List ℕ)) (text : List ℕ) (refuses : Bool) → Serves old lines text refuses new
        → AllHaveOption option old → AllHaveOption option new }
{}

/// A session that spells a history whose maps all elaborate with the same option opens the same list of maps at the same
/// place, whatever limit it is opened with.
pub fn spelled_histories_open_again()
    ensures { (option : Option (List ℕ)) (bytes : List ℕ) (now : State) (h : History State) → EachElaborates h → AllHaveOption option h → IsAt h now
        → IsUtf8 bytes → SpellsHistory bytes now h → OpensAgain option bytes h }
{}

/// The session that a run of a map leaves, where it is asked for and isn't too long, spells the history to which the script
/// led. Given back, it opens the same list of maps at the same place, whatever limit it is opened with. That is so of each
/// session that is UTF-8; so of what a run wrote, and of what it wrote where it went on from such a session, after any number
/// of stops.
pub fn saved_sessions_read_back()
    ensures text_spelled { (options : Options) (map script : List ℕ) (out : Output) (saved : SavesSession options map script out)
        → SpellsHistory out.session saved.ran.runs.closes.now saved.ran.runs.last }
    ensures text_opened { (options : Options) (map script : List ℕ) (out : Output) (saved : SavesSession options map script out) → OpensAgain options.top out.session saved.ran.runs.last }
    ensures spelled { (options : Options) (map bytes script : List ℕ) (scripts : List (List ℕ)) (out : Output) (saved : SavesAfterStops options map scripts bytes script out)
        → SpellsHistory out.session saved.ran.runs.closes.now saved.ran.runs.last }
    ensures opened { (options : Options) (map bytes script : List ℕ) (scripts : List (List ℕ)) (out : Output) (saved : SavesAfterStops options map scripts bytes script out)
        → OpensAgain options.top out.session saved.ran.runs.last }
{}

/// A run of a map that stops, and another that goes on from its session with the same top and history, leave the map and the
/// header that one run of both scripts leaves. That is so of each session that is UTF-8; and of any number of stops, of which
/// each leaves a session.
pub fn stopped_runs_go_on()
    ensures text { (options again : Options) (map script more : List ℕ) (out : Output) → SavesSession options map script out → GoesOnAlike options again
        → LeavesSameFiles again out.session more map (script ++ newline ++ more) }
    ensures any_number { (options again : Options) (map bytes more : List ℕ) (scripts : List (List ℕ)) → GoesOnFromMap options map scripts bytes
        → GoesOnAlike options again → LeavesSameFiles again bytes more map (joined scripts more) }
{}
