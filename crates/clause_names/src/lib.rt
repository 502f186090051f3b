// What a name may stand for, by the kind of an item.
#![tactic(auto)]

ghost use Rattle.std.specs.Prelude.{◌≡◌};
ghost use Rattle.text_names.specs.Word.{name_of};
ghost use Rattle.text_names.specs.Joint.{joint};
ghost use Rattle.clause_names.specs.Named.{kind_named};

use form_rows::kinds;
use text_names::joint::{is_infix, is_operator};

// May the name `new` stand for an item of the kind? An operator: for no sort, and for functions with as many arguments as it has.
pub fn may_name(library: &[u8], text: &[u8], new: u32, kind: u32) -> bool
    ensures { result ≡ kind_named (name_of (joint library.now text.now) new) kind }
{
    if kind == kinds::VARIABLE {
        return true;
    }
    if is_operator(library, text, new) {
        if is_infix(library, text, new) {
            return kind == kinds::INFIX;
        }
        return kind == kinds::PREFIX;
    }
    true
}
