// The table of where each module's normal form is kept: a row of sixteen words for each module, and one more for a name that no module has.
#![tactic(auto)]

ghost use Rattle.std.specs.Prelude.{◌≡◌, [], ◌∷◌, ◌+◌, ◌*◌, ◌^◌, ◌≤◌, ◌<◌, length};
ghost use Rattle.std.proofs.lemmas.List.Edits.{sets};
ghost use Rattle.form.specs.Forms.{form_size};
ghost use Rattle.form_keeping.specs.Keeping.{form_at, form_words, nothing_at, Cleared};

use form::{FORM_STEP, Form};
use form_rows::entries::{put_word, word_at};

// Row k of the table.
fn form_place(table: u32, k: u32) -> usize
    ensures { result ≡ table + k * form_size }
{
    table as usize + k as usize * FORM_STEP
}

// The form whose words begin at b.
fn form_at(w: &[u32], b: usize) -> Form
    requires { b < 2 ^ 40 }
    ensures { result ≡ form_at w.now b }
{
    let parameters = word_at(w, b);
    let parameter_count = word_at(w, b + 1);
    let visible = word_at(w, b + 2);
    let visible_count = word_at(w, b + 3);
    let hidden = word_at(w, b + 4);
    let hidden_count = word_at(w, b + 5);
    let equations = word_at(w, b + 6);
    let equation_count = word_at(w, b + 7);
    let nodes = word_at(w, b + 8);
    let node_count = word_at(w, b + 9);
    Form {
        parameters,
        parameter_count,
        visible,
        visible_count,
        hidden,
        hidden_count,
        equations,
        equation_count,
        nodes,
        node_count,
    }
}

// Where the normal form of module k is.
pub fn read_form(w: &[u32], table: u32, k: u32) -> Form
    ensures { result ≡ form_at w.now (table + k * form_size) }
{
    let b = form_place(table, k);
    form_at(w, b)
}

// v and x stored from b on.
fn put_two(w: &mut [u32], b: usize, v: u32, x: u32)
    requires { b < 2 ^ 41 }
    ensures { w.new ≡ sets w.old b (v ∷ x ∷ []) }
{
    put_word(w, b, v);
    put_word(w, b + 1, x);
}

// v, x, y and z stored from b on.
fn put_four(w: &mut [u32], b: usize, v: u32, x: u32, y: u32, z: u32)
    requires { b < 2 ^ 40 }
    ensures { w.new ≡ sets w.old b (v ∷ x ∷ y ∷ z ∷ []) }
{
    put_two(w, b, v, x);
    put_two(w, b + 2, y, z);
}

// The normal form of module k is at f.
pub fn write_form(w: &mut [u32], table: u32, k: u32, f: Form)
    ensures { w.new ≡ sets w.old (table + k * form_size) (form_words f) }
{
    let b = form_place(table, k);
    put_four(
        w,
        b,
        f.parameters,
        f.parameter_count,
        f.visible,
        f.visible_count,
    );
    put_four(
        w,
        b + 4,
        f.hidden,
        f.hidden_count,
        f.equations,
        f.equation_count,
    );
    put_two(w, b + 8, f.nodes, f.node_count);
}

// A form at `kept` that has nothing.
fn nothing_at(kept: u32) -> Form
    ensures { result ≡ nothing_at kept }
{
    Form {
        parameters: kept,
        parameter_count: 0,
        visible: kept,
        visible_count: 0,
        hidden: kept,
        hidden_count: 0,
        equations: kept,
        equation_count: 0,
        nodes: kept,
        node_count: 0,
    }
}

// No module has a normal form yet: each of the n rows of the table has nothing.
pub fn clear_forms(w: &mut [u32], table: u32, n: u32, kept: u32)
    requires { table + n * form_size ≤ length w.old }
    ensures { Cleared table n kept w.old w.new }
{
    let nothing = nothing_at(kept);
    for k in 0..n {
        write_form(w, table, k, nothing);
    }
}
