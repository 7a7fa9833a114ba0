ghost use Rattle.std.specs.Prelude.{◌≡◌, ℕ, Bool, List, All, Option};
ghost use Rattle.meta_typevar.specs.Registry.{HoldTypeSets};
ghost use Rattle.meta_build.specs.AllDeclared.{Declared, AreValid};
ghost use Rattle.meta_table_text.specs.declared.version.Version.{Version};
ghost use Rattle.meta_program.specs.Counts.{IsCheckLine};
ghost use Rattle.meta_program.specs.TablesIn.{IsShownIn};
ghost use Rattle.meta_program.specs.Over.{IsOver, path_of, asked_of};
ghost use Rattle.meta_program.specs.declared.plan.Over.{Over as spec_Over};
ghost use Rattle.meta_program.specs.Tool.{AreToolWords};
ghost use Rattle.meta_program.specs.File.{Declares, IsRefusal};
ghost use Rattle.meta_program.specs.declared.tool.Tool.{Tool as spec_Tool};
ghost use Rattle.meta_build.specs.BuiltDeclarations.{BuiltDeclarations, AreBuilt};
ghost use Rattle.meta_file_syntax.specs.declared.items.Item.{Item};
ghost use Rattle.meta_file_declare.specs.AllItems.{Declares as DeclaresItems};
ghost use Rattle.meta_rust_names.specs.AllRefused.{refused_names};
ghost use Rattle.meta_program.specs.Told.{AreTold};
ghost use Rattle.meta_program.specs.NamedItems.{NameHasItem, HasItsLine};
ghost use Rattle.meta_program.specs.declared.plan.Names.{Names as spec_Names};
ghost use Rattle.meta_program.specs.Plan.{IsPlan, planned};
ghost use Rattle.meta_program.specs.declared.plan.Plan.{Plan as spec_Plan};
ghost use Rattle.meta_program.specs.Wrong.{IsWrong, IsWrongIfAny};
ghost use Rattle.meta_program.specs.declared.wrong.Wrong.{Wrong as spec_Wrong};

use meta_build::one_first_fault;
use meta_file_declare::{items_say_one_thing, one_declaration};
use meta_file_reader::what_is_read;
use meta_gen::one_table_of_declarations;
use meta_query::one_command;

/// Words ask at most one thing.
pub fn one_tool()
    ensures { (t u : spec_Tool) (words : List (List ℕ)) → AreToolWords t words → AreToolWords u words → t ≡ u }
{
    one_command();
}

/// A text makes at most one list of declarations, and no valid ones if it is refused. It is refused by one message.
pub fn a_text_declares_one_thing()
    ensures same { (text : List ℕ) (d e : Declared) → Declares text d → Declares text e → d ≡ e }
    ensures refused { (path text message : List ℕ) (d : Declared) → IsRefusal path text message → Declares text d → AreValid d → ⊥ }
    ensures message { (path text m n : List ℕ) → IsRefusal path text m → IsRefusal path text n → m ≡ n }
{
    what_is_read();
    items_say_one_thing();
    one_declaration();
    one_first_fault();
}

/// `check` writes at most one line for declarations. The type variables must have type sets, as those of `Declarations` always do.
pub fn one_check_line()
    ensures { (d : Declared) (line other : List ℕ) → HoldTypeSets d.set.vars → IsCheckLine d line → IsCheckLine d other → line ≡ other }
{
    one_table_of_declarations();
}

/// `tables --version N` writes at most one text for declarations, and it is an answer or a rejection, never both. The type variables must
/// have type sets, as those of `Declarations` always do.
pub fn one_text_of_a_version()
    ensures rejection { (version : Version) (d : Declared) (a b : Bool) (out other : List ℕ) → HoldTypeSets d.set.vars
        → IsShownIn version d a out → IsShownIn version d b other → a ≡ b }
    ensures text { (version : Version) (d : Declared) (a b : Bool) (out other : List ℕ) → HoldTypeSets d.set.vars
        → IsShownIn version d a out → IsShownIn version d b other → out ≡ other }
{
    one_table_of_declarations();
}

/// Words are asked over one thing: over one file or over the shared declarations. They ask one thing of it.
pub fn one_over()
    ensures path { (words : List (List ℕ)) (a b : spec_Over) → IsOver words a → IsOver words b → path_of a ≡ path_of b }
    ensures asked { (words : List (List ℕ)) (a b : spec_Over) → IsOver words a → IsOver words b → asked_of a ≡ asked_of b }
{}

/// Each name that Rust refuses is reported with the line of an item: the item that declares the instruction, format or group with the name,
/// or the setting, as its group is built. So each message of a check has the line of such an item.
pub fn names_have_their_items()
    ensures items { (items : List Item) (b : BuiltDeclarations) → DeclaresItems items b.declared → AreBuilt b
        → All (NameHasItem items b) (refused_names b) }
    ensures lines { (path text : List ℕ) (names : spec_Names) (d : Declared) (messages : List (List ℕ)) → Declares text d
        → AreTold path names text d messages → All (HasItsLine path names text d) messages }
{
    what_is_read();
}

/// The words decide the plan: two plans for the same words name the same path, and ask the same.
pub fn one_plan()
    ensures { (words : List (List ℕ)) (p q : spec_Plan) → IsPlan words p → IsPlan words q → planned p ≡ planned q }
{
    one_tool();
}

/// At most one `Wrong` fits the words. If none fits, the list of commands says what is wrong.
pub fn one_wrong()
    ensures case { (over : spec_Over) (a b : spec_Wrong) → IsWrong over a → IsWrong over b → a ≡ b }
    ensures any { (over : spec_Over) (a b : Option spec_Wrong) → IsWrongIfAny over a → IsWrongIfAny over b → a ≡ b }
{}
