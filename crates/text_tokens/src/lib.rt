// The tokens of a text, each found from a place on.
#![tactic(auto)]

ghost use Rattle.std.specs.Prelude.{◌≡◌, ◌<◌, ◌≤◌, length};
ghost use Rattle.meaning.specs.Names.{words};
ghost use Rattle.meaning.specs.Tokens.{run_end, token, equals_at, word_at, dotted_at, start_at, token_at, number_in, word_kind};
ghost use Rattle.text_tokens.specs.Signs.{sign_at};
ghost use Rattle.text_tokens.specs.Table.{in_word};

use text_marks::{
    comment_sign, contains, equals_end, hyphen_before, is_mark, is_symbol, skip, symbols_end,
};
use text_names::{byte_at, is_word, run_end, same_bytes, word_end};
use types::Token;

// The kinds of tokens. A mark and `=` are their own bytes; the fifteen keywords are numbered in the order of their table.
pub const END_OF_TEXT: u8 = 0;

pub const IDENT: u8 = 1;

pub const ARROW: u8 = 2;

pub const IMPLIES: u8 = 3;

pub const NO_TOKEN: u8 = 4;

pub const OPERATOR: u8 = 5;

const BEFORE_KEYWORDS: u8 = 128;

pub const BEGIN_KEY: u8 = 129;

pub const BOUND_KEY: u8 = 130;

pub const BY_KEY: u8 = 131;

pub const END_KEY: u8 = 132;

pub const EQUATIONS_KEY: u8 = 133;

pub const EXPORTS_KEY: u8 = 134;

pub const FUNCTIONS_KEY: u8 = 135;

pub const IMPORTS_KEY: u8 = 136;

pub const MODULE_KEY: u8 = 137;

pub const PARAMETERS_KEY: u8 = 138;

pub const RENAMED_KEY: u8 = 139;

pub const SORTS_KEY: u8 = 140;

pub const TO_KEY: u8 = 141;

pub const VARIABLES_KEY: u8 = 142;

pub const WHEN_KEY: u8 = 143;

// The end of the word that starts at `at`: the next space, or the end of the table.
fn word_stop(table: &[u8], at: usize) -> usize
    ensures { result ≡ run_end in_word table.now at }
{
    run_end(table, at, |b| b != b' ')
}

// The number of the first word of the table that w is, from 1 on; 0 if it is none.
pub fn number_in(table: &[u8], w: &[u8]) -> usize
    ensures { result ≡ number_in (words table.now) 1 w.now }
{
    let mut at = 0;
    let mut n = 1;
    // no `for`: each turn goes on behind the word of the turn before it
    loop {
        let e = word_stop(table, at);
        if same_bytes(w, &table[at..e]) {
            return n;
        }
        if table.len() <= e {
            return 0;
        }
        at = e + 1;
        n += 1;
    }
}

// A keyword's kind, or an identifier's.
fn word_kind(w: &[u8]) -> u8
    ensures { result ≡ word_kind w.now }
{
    let k = number_in(
        b"begin bound by end equations exports functions imports module parameters renamed sorts to variables when",
        w,
    );
    if k == 0 {
        return IDENT;
    }
    BEFORE_KEYWORDS + (k as u8)
}

fn token(kind: u8, start: usize, end: usize) -> Token
    ensures { result ≡ token kind start end }
{
    Token { kind, start, end }
}

// The token that begins with = at i.
fn equals_at(text: &[u8], i: usize) -> Token
    requires { i < length text.now }
    ensures { result ≡ equals_at text.now i }
{
    let alone = token(b'=', i, i + 1);
    let j = equals_end(text, i);
    if i + 1 < j {
        if j < text.len() {
            if contains(b">\n", text[j]) {
                return token(IMPLIES, i, j + 1);
            }
        }
    }
    alone
}

// The identifier or keyword that begins at i.
fn word_at(text: &[u8], i: usize) -> Token
    requires { i ≤ length text.now }
    ensures { result ≡ word_at text.now i }
{
    let e = word_end(text, i);
    token(word_kind(&text[i..e]), i, e)
}

// The operator whose first dot is at i: an identifier that is no keyword, between dots.
fn dotted_at(text: &[u8], i: usize) -> Token
    requires { i < length text.now }
    ensures { result ≡ dotted_at text.now i }
{
    let none = token(NO_TOKEN, i, i);
    if is_word(byte_at(text, i + 1)) {
        let w = word_at(text, i + 1);
        let kind = w.kind;
        let end = w.end;
        if kind == IDENT {
            if byte_at(text, end) == b'.' {
                return token(OPERATOR, i, end + 1);
            }
        }
    }
    none
}

// The token that begins with a symbol or a dot at i, if one does.
fn sign_at(text: &[u8], i: usize) -> Token
    requires { i < length text.now }
    ensures { result ≡ sign_at text.now i }
{
    let b = text[i];
    if hyphen_before(text, i, b'>') {
        return token(ARROW, i, i + 2);
    }
    if is_symbol(b) {
        if comment_sign(text, i) {
            return token(NO_TOKEN, i, i);
        }
        return token(OPERATOR, i, symbols_end(text, i));
    }
    if b == b'.' {
        return dotted_at(text, i);
    }
    token(NO_TOKEN, i, i)
}

// The token that starts at i.
fn start_at(text: &[u8], i: usize) -> Token
    ensures { result ≡ start_at text.now i }
{
    if i < text.len() {
        let b = text[i];
        // asked first, since no word's byte is a mark and most tokens are words
        if is_word(b) {
            return word_at(text, i);
        }
        if is_mark(b) {
            return token(b, i, i + 1);
        }
        if b == b'=' {
            return equals_at(text, i);
        }
        return sign_at(text, i);
    }
    token(END_OF_TEXT, i, i)
}

// The token at or after `at`, past layout and comments.
pub fn next_token(text: &[u8], at: usize) -> Token
    ensures { result ≡ token_at text.now at }
{
    start_at(text, skip(text, at))
}
