// Rows of sixteen words, moved in and out by value.
ghost use Rattle.std.specs.Prelude.{◌≡◌, ◌+◌, ◌*◌, ◌^◌, ◌<◌};
ghost use Rattle.std.proofs.lemmas.List.Edits.{sets};
ghost use Rattle.form_rows.specs.Rows.{words_from, row_at, row_words, row_size};
ghost use Rattle.form_rows.specs.Kinds.{origin_words, read_origin};

use super::entries::{put_word, word_at};
use super::{Origin, ROW_STEP, Row};
use form_sections::{section_word, word_section};

// Row i of a table that starts at `base`.
fn row_place(base: u32, i: u32) -> usize
    ensures { result ≡ base + i * row_size }
{
    base as usize + i as usize * ROW_STEP
}

// Nine words from b on.
fn read_sorts(w: &[u32], b: usize) -> [u32; 9]
    requires { b < 2 ^ 40 }
    ensures { result ≡ words_from w.now b 9 }
{
    let mut sorts = [0; 9];
    for i in 0..9 {
        sorts[i] = word_at(w, b + i);
    }
    sorts
}

fn read_origin(w: &[u32], b: usize) -> Origin
    requires { b < 2 ^ 40 }
    ensures { result ≡ read_origin w.now b }
{
    let home = word_at(w, b);
    let section = word_section(word_at(w, b + 1));
    let place = word_at(w, b + 2);
    Origin {
        home,
        section,
        place,
    }
}

// The row at i of the table that starts at `base`.
pub fn read_row(w: &[u32], base: u32, i: u32) -> Row
    ensures { result ≡ row_at w.now (base + i * row_size) }
{
    let b = row_place(base, i);
    let standing = word_section(word_at(w, b));
    let name = word_at(w, b + 1);
    let kind = word_at(w, b + 2);
    let origin = read_origin(w, b + 3);
    let sorts = read_sorts(w, b + 6);
    Row {
        standing,
        name,
        kind,
        origin,
        sorts,
    }
}

fn write_sorts(w: &mut [u32], b: usize, sorts: [u32; 9])
    requires { b < 2 ^ 40 }
    ensures { w.new ≡ sets w.old b sorts }
{
    for i in 0..9 {
        put_word(w, b + i, sorts[i]);
    }
}

fn write_origin(w: &mut [u32], b: usize, origin: Origin)
    requires { b < 2 ^ 40 }
    ensures { w.new ≡ sets w.old b (origin_words origin) }
{
    let section = origin.section;
    put_word(w, b, origin.home);
    put_word(w, b + 1, section_word(section));
    put_word(w, b + 2, origin.place);
}

// The row at i of the table that starts at `base`, stored.
pub fn write_row(w: &mut [u32], base: u32, i: u32, row: Row)
    ensures { w.new ≡ sets w.old (base + i * row_size) (row_words row) }
{
    let b = row_place(base, i);
    let standing = row.standing;
    let origin = row.origin;
    let sorts = row.sorts;
    put_word(w, b, section_word(standing));
    put_word(w, b + 1, row.name);
    put_word(w, b + 2, row.kind);
    write_origin(w, b + 3, origin);
    write_sorts(w, b + 6, sorts);
}
