// The typer of terms: a term and its arguments call each other, with the depth falling. The memory goes down by one reference, which takes a register:
// a slice is handed over as a copy in memory, of which each level would keep one. The texts go down by another, and by a third what is known, the places
// and the depth, so that what a level hands on is in registers, but for a word.
ghost use Rattle.std.specs.Prelude.{◌≡◌, ◌+◌, ◌-◌, ◌^◌, ◌≤◌, ◌<◌, length, get_or};
ghost use Rattle.text_names.specs.Joint.{joint};
ghost use Rattle.form_rows.specs.Entries.{role_at};
ghost use Rattle.form.specs.Memory.{part};
ghost use Rattle.own_finding.specs.Arguments.{ends_at};
ghost use Rattle.own_terms.specs.Typing.{out, settled, variable_at, function_row, alone_at, applied_at, no_sorts, args_at, term_at, operated};
ghost use Rattle.own_terms.specs.Typing.{returned, Backed, stepped, shortened, operators_in, operands_at, Operators, Ended, known_of, Words, At};
ghost use Rattle.own_terms.specs.Typing.{AtName, Room, answered, Told, Typed, Reached, Read, item_at};

use super::Sorted;
use form_rows::ROW_STEP;
use form_rows::entries::{name_at, put_word, role_at, word_at};
use own_finding::Known;
use own_finding::arguments::{arguments_of, behind, closers_of, ends_at, node_word};
use own_finding::find::{find_function, find_variable};
use tape::roles;

// So many operators are gone over at once at the most: behind its highest bit a word tells of each whether it is infix, and a term of 64 nodes has no more.
const ROW: usize = 63;

// The texts that the names are in.
#[derive(Clone, Copy)]
struct Texts<'a> {
    library: &'a [u8],
    text: &'a [u8],
}

// The node at q is of the item of a row, with n arguments.
fn settle(
    work: &mut [u32],
    k: Known,
    q: usize,
    row: u32,
    n: usize,
    next: usize,
    free: usize,
) -> Sorted
    requires { (row < 65536) × (k.hidden ≤ 65536) × (n ≤ 9) }
    ensures { out (Some result) work.new ≡ settled k q row n next free work.old }
{
    let base = k.base;
    let sort = word_at(work, base as usize + row as usize * ROW_STEP + 14);
    let v = node_word(k, row, n);
    put_word(work, q, v);
    Sorted { sort, next, free }
}

// The row of the variable that the name at i is; `count` if it is none, or does not stand alone.
#[tactic(auto, unfolding(crate::specs::Typing::variable_at, crate::specs::Typing::variable_row, meaning::specs::Lists::pick))]
fn variable_row(library: &[u8], text: &[u8], work: &[u32], k: Known, i: usize, alone: bool) -> u32
    requires { k.tape ≤ length work.now }
    ensures { result ≡ variable_at (joint library.now text.now) k alone i work.now }
{
    let n = k.count;
    if alone {
        let t = k.tape;
        let b = k.base;
        let a = name_at(&work[0..t], i);
        return find_variable(library, text, work, t, b, n, a);
    }
    n
}

// The row of the function that the name at i is with arguments of the first n sorts; `count` if it is none.
#[tactic(auto, unfolding(crate::specs::Typing::function_row))]
fn function_row(
    library: &[u8],
    text: &[u8],
    work: &[u32],
    k: Known,
    i: usize,
    sorts: &[u32; 9],
    n: usize,
) -> u32
    requires { (k.tape ≤ length work.now) × (n ≤ 9) × (length sorts.now ≡ 9) }
    ensures { result ≡ function_row (joint library.now text.now) k i sorts.now n work.now }
{
    let t = k.tape;
    let b = k.base;
    let m = k.count;
    let a = name_at(&work[0..t], i);
    find_function(library, text, work, t, b, m, a, sorts, n)
}

// The name at i whose arguments have the first n sorts.
#[tactic(auto, unfolding(crate::specs::Typing::applied_at, crate::specs::Typing::resolved, meaning::specs::Lists::pick))]
fn type_applied(
    library: &[u8],
    text: &[u8],
    work: &mut [u32],
    k: Known,
    i: usize,
    q: usize,
    n: usize,
    sorts: &[u32; 9],
    next: usize,
    free: usize,
) -> Option<Sorted>
    requires { (k.tape ≤ length work.old) × (n ≤ 9) × (length sorts.now ≡ 9) × (k.count ≤ 65536) × (k.hidden ≤ 65536) }
    ensures { out result work.new ≡ applied_at (joint library.now text.now) k i q n sorts.now next free work.old }
{
    let count = k.count;
    let f = function_row(library, text, work, k, i, sorts, n);
    if f < count {
        return Some(settle(work, k, q, f, n, next, free));
    }
    None
}

// The words that a level is lent: what is known, which is the tape, base, count, visible and hidden, then the two places and the depth, and the two
// places of a name that is typed. They are in one array, so that one reference goes down.
#[tactic(auto, unfolding(crate::specs::Typing::known_of))]
fn known_words(k: Known, i: usize, q: usize, depth: usize) -> [usize; 10]
    ensures { At k i q depth result }
{
    let tape = k.tape;
    let base = k.base;
    let count = k.count;
    let visible = k.visible;
    let hidden = k.hidden;
    [
        tape,
        base as usize,
        count as usize,
        visible as usize,
        hidden as usize,
        i,
        q,
        depth,
        0,
        0,
    ]
}

// What is known, of its words.
#[tactic(auto, unfolding(crate::specs::Typing::known_of))]
fn known_of(k: &[usize; 10]) -> Known
    requires { Words k.now }
    ensures { result ≡ known_of k.now }
{
    Known {
        tape: k[0],
        base: k[1] as u32,
        count: k[2] as u32,
        visible: k[3] as u32,
        hidden: k[4] as u32,
    }
}

// The words at other places.
fn move_to(words: &mut [usize; 10], next: usize, free: usize)
    requires { length words.old ≡ 10 }
    ensures { At (known_of words.old) next free (get_or words.old 7 0) words.new }
{
    words[5] = next;
    words[6] = free;
}

// The words at a name, whose places are the row's.
fn point_at(words: &mut [usize; 10], row: &[usize; 3])
    requires { length words.old ≡ 10 }
    ensures { AtName words.old (get_or row.now 0 0) (get_or row.now 1 0) words.new }
{
    words[8] = row[0];
    words[9] = row[1];
}

// The words a level deeper.
fn descend(words: &mut [usize; 10])
    requires { (length words.old ≡ 10) × (0 < get_or words.old 7 0) }
    ensures { At (known_of words.old) (get_or words.old 5 0) (get_or words.old 6 0) (get_or words.old 7 0 - 1) words.new }
{
    words[7] -= 1;
}

// The words a level back.
fn ascend(words: &mut [usize; 10])
    requires { (length words.old ≡ 10) × (get_or words.old 7 0 + 1 < 2 ^ 64) }
    ensures { At (known_of words.old) (get_or words.old 5 0) (get_or words.old 6 0) (get_or words.old 7 0 + 1) words.new }
{
    words[7] += 1;
}

// The answer as a number, one more than the sort, with its places; 0 where the term is ill typed.
fn tell(a: Option<Sorted>, words: &mut [usize; 10]) -> usize
    requires { length words.old ≡ 10 }
    ensures { Told a (known_of words.old) (get_or words.old 7 0) result words.new }
{
    let Some(sorted) = a else {
        return 0;
    };
    move_to(words, sorted.next, sorted.free);
    sorted.sort as usize + 1
}

// The name that the words point at: a variable if it stands alone, or else a function of the first n sorts; its node is written at its place. The one call
// of `type_applied` is compiled into it, so that it is too large to be compiled into a level, whatever `alone` is there.
fn item_in(
    library: &[u8],
    text: &[u8],
    work: &mut [u32],
    words: &mut [usize; 10],
    alone: bool,
    sorts: &[u32; 9],
    n: usize,
) -> usize
    requires { Room words.old work.old × (n ≤ 9) × (length sorts.now ≡ 9) }
    ensures { let joined = joint library.now text.now in
        let k = known_of words.old in
        let name = get_or words.old 8 0 in
        let place = get_or words.old 9 0 in
        let o = item_at joined k alone name place n sorts.now (get_or words.old 5 0) (get_or words.old 6 0) work.old in
        Typed o k (get_or words.old 7 0) result words.new work.new }
{
    let known = known_of(words);
    let count = known.count;
    let i = words[8];
    let q = words[9];
    let next = words[5];
    let free = words[6];
    let v = variable_row(library, text, work, known, i, alone);
    if v < count {
        let a = settle(work, known, q, v, n, next, free);
        return tell(Some(a), words);
    }
    let a = type_applied(library, text, work, known, i, q, n, sorts, next, free);
    tell(a, words)
}

// The same by the references that go down.
fn type_item(
    texts: &Texts,
    work: &mut &mut [u32],
    words: &mut [usize; 10],
    alone: bool,
    sorts: &[u32; 9],
    n: usize,
) -> usize
    requires { Room words.old work.old.now × (n ≤ 9) × (length sorts.now ≡ 9) }
    ensures { let joined = joint texts.now.library.now texts.now.text.now in
        let k = known_of words.old in
        let name = get_or words.old 8 0 in
        let place = get_or words.old 9 0 in
        let o = item_at joined k alone name place n sorts.now (get_or words.old 5 0) (get_or words.old 6 0) work.old.now in
        Reached o k (get_or words.old 7 0) work.old result words.new work.new }
{
    item_in(texts.library, texts.text, *work, words, alone, sorts, n)
}

// The name at the row, alone.
fn type_leaf(
    texts: &Texts,
    work: &mut &mut [u32],
    words: &mut [usize; 10],
    row: &[usize; 3],
    sorts: &[u32; 9],
) -> usize
    requires { Room words.old work.old.now × (get_or row.now 0 0 < get_or words.old 0 0) × (get_or row.now 1 0 < length work.old.now)
        × (sorts.now ≡ no_sorts) }
    ensures { let joined = joint texts.now.library.now texts.now.text.now in
        let k = known_of words.old in
        let o = alone_at joined k (get_or row.now 0 0) (get_or row.now 1 0) work.old.now in
        Reached o k (get_or words.old 7 0) work.old result words.new work.new }
{
    let i = row[0];
    let q = row[1];
    move_to(words, i + 1, q + 1);
    point_at(words, row);
    type_item(texts, work, words, true, sorts, 0)
}

// The name at the row with arguments of the first n sorts.
fn type_named(
    texts: &Texts,
    work: &mut &mut [u32],
    words: &mut [usize; 10],
    row: &[usize; 3],
    sorts: &[u32; 9],
    n: usize,
) -> usize
    requires { Room words.old work.old.now × (n ≤ 9) × (length sorts.now ≡ 9) }
    ensures { let joined = joint texts.now.library.now texts.now.text.now in
        let k = known_of words.old in
        let name = get_or row.now 0 0 in
        let place = get_or row.now 1 0 in
        let o = applied_at joined k name place n sorts.now (get_or words.old 5 0) (get_or words.old 6 0) work.old.now in
        Reached o k (get_or words.old 7 0) work.old result words.new work.new }
{
    point_at(words, row);
    type_item(texts, work, words, false, sorts, n)
}

// How many operands the operator at i has, if there is room for its node at q; 0 where none stands there.
#[tactic(auto, unfolding(crate::specs::Typing::operands_at, meaning::specs::Lists::pick))]
fn operands_at(work: &[u32], t: usize, i: usize, q: usize) -> usize
    requires { t ≤ length work.now }
    ensures { result ≡ operands_at t i q work.now }
{
    if i < t {
        if q < work.len() {
            let role = role_at(&work[0..t], i);
            if closers_of(role) == 0 {
                return arguments_of(role);
            }
            return 0;
        }
        return 0;
    }
    0
}

// The operators that stand one behind the other from i on, as far as the depth, the room and a word go: the entry and the place behind them, and
// a word that tells which are infix, of the last one in its lowest bit. It is kept, as the tape is not read again: nodes may have been written there. All
// that a level keeps of its row is in this one array, which is lent, so that no frame has any of it twice; the depth there is left in the words.
fn operators_from(work: &mut [u32], words: &mut [usize; 10], i: usize, q: usize) -> [usize; 3]
    requires { Room words.old work.old }
    ensures { Operators words.old i q work.old result words.new work.new }
{
    let t = words[0];
    let mut n = 0;
    let mut word = 1;
    // a while: a `for` over 0..ROW was tried, and takes 16 bytes more of stack at each level
    while 0 < words[7] {
        if n == ROW {
            return [i + n, q + n, word];
        }
        let a = operands_at(work, t, i + n, q + n);
        if a == 0 {
            return [i + n, q + n, word];
        }
        word = word * 2 + (a - 1);
        n += 1;
        descend(words);
    }
    [i + n, q + n, word]
}

// The operator at the row, whose first operand is typed, and whose second follows if it is infix.
#[cycle(typing)]
fn type_operator(
    texts: &Texts,
    work: &mut &mut [u32],
    words: &mut [usize; 10],
    row: &[usize; 3],
    sorts: &mut [u32; 9],
    first: usize,
) -> usize
    requires { Room words.old work.old.now × (first ≡ 0 → ⊥) × (first ≤ 4294967296) }
    ensures { let joined = joint texts.now.library.now texts.now.text.now in
        let k = known_of words.old in
        let depth = get_or words.old 7 0 in
        let typed = out (answered first (get_or words.old 5 0) (get_or words.old 6 0)) work.old.now in
        let o = operated joined k depth (get_or row.now 2 0) (get_or row.now 0 0) (get_or row.now 1 0) typed in
        Reached o k depth work.old result words.new work.new }
{
    *sorts = [0; 9];
    sorts[0] = (first - 1) as u32;
    if row[2] % 2 == 0 {
        return type_named(texts, work, words, row, sorts, 1);
    }
    let second = type_deep(texts, work, words);
    if second == 0 {
        return 0;
    }
    sorts[1] = (second - 1) as u32;
    type_named(texts, work, words, row, sorts, 2)
}

// The row at its last operator.
#[tactic(auto, unfolding(crate::specs::Typing::stepped))]
fn step_back(row: &mut [usize; 3])
    requires { (0 < get_or row.old 0 0) × (0 < get_or row.old 1 0) }
    ensures { row.new ≡ stepped row.old }
{
    let i = row[0];
    let q = row[1];
    let word = row[2];
    *row = [i - 1, q - 1, word];
}

// The row without its last operator, which is typed.
#[tactic(auto, unfolding(crate::specs::Typing::shortened))]
fn shorten(row: &mut [usize; 3])
    ensures { row.new ≡ shortened row.old }
{
    let i = row[0];
    let q = row[1];
    let word = row[2];
    *row = [i, q, word / 2];
}

// The operators of the row, from the last one to the first; the term behind them is typed.
#[cycle(typing)]
fn type_back(
    texts: &Texts,
    work: &mut &mut [u32],
    words: &mut [usize; 10],
    row: &mut [usize; 3],
    sorts: &mut [u32; 9],
    first: usize,
) -> usize
    requires { Room words.old work.old.now × (first ≡ 0 → ⊥) × (first ≤ 4294967296) × Backed (get_or words.old 7 0) row.old }
    ensures { let joined = joint texts.now.library.now texts.now.text.now in
        let k = known_of words.old in
        let depth = get_or words.old 7 0 in
        let typed = out (answered first (get_or words.old 5 0) (get_or words.old 6 0)) work.old.now in
        let o = returned joined k depth row.old typed in
        Reached o k (depth + operators_in row.old) work.old result words.new work.new }
{
    let mut sort = first;
    // a while: only the word tells how many operators are left, and each turn takes a bit off it
    while 1 < row[2] {
        step_back(row);
        sort = type_operator(texts, work, words, row, sorts, sort);
        if sort == 0 {
            return 0;
        }
        shorten(row);
        ascend(words);
    }
    sort
}

// Whether the arguments in brackets end before the entry, where so many more may follow. What only reads the memory is lent the slice itself, as no part of
// it can be lent by the reference to it.
fn ends_in(work: &mut [u32], t: usize, left: usize, at: usize) -> bool
    requires { t ≤ length work.old }
    ensures { Read (ends_at (part work.old 0 t) 1 left at) work.old result work.new }
{
    ends_at(&work[0..t], 1, left, at)
}

// The role of the entry.
fn role_in(work: &mut [u32], t: usize, i: usize) -> u32
    requires { t ≤ length work.old }
    ensures { Read (role_at (part work.old 0 t) i) work.old result work.new }
{
    role_at(&work[0..t], i)
}

// The name at the row with the arguments in its brackets, which are from the places on. Where the tape ends is read at each turn: no level keeps it.
#[cycle(typing)]
fn type_args(
    texts: &Texts,
    work: &mut &mut [u32],
    words: &mut [usize; 10],
    row: &[usize; 3],
    sorts: &mut [u32; 9],
) -> usize
    requires { Room words.old work.old.now × (get_or words.old 7 0 ≡ 0 → ⊥) × (sorts.old ≡ no_sorts) }
    ensures { let joined = joint texts.now.library.now texts.now.text.now in
        let k = known_of words.old in
        let depth = get_or words.old 7 0 in
        let name = get_or row.now 0 0 in
        let place = get_or row.now 1 0 in
        let o = args_at joined k (depth - 1) name place 1 9 (get_or words.old 5 0) (get_or words.old 6 0) 0 no_sorts work.old.now in
        Reached o k depth work.old result words.new work.new }
{
    let mut count = 0;
    // a loop: whether the arguments end is asked once more than one of them is typed
    loop {
        let t = words[0];
        let at = words[5];
        if ends_in(*work, t, 9 - count, at) {
            let free = words[6];
            move_to(words, behind(at, 1), free);
            return type_named(texts, work, words, row, sorts, count);
        }
        if count == 9 {
            return 0;
        }
        descend(words);
        let sort = type_deep(texts, work, words);
        if sort == 0 {
            return 0;
        }
        ascend(words);
        sorts[count] = (sort - 1) as u32;
        count += 1;
    }
}

// The term behind as many operators as a word tells of. Apart, so that what its call is lent is not kept beside what the others are.
#[cycle(typing)]
fn type_onward(texts: &Texts, work: &mut &mut [u32], words: &mut [usize; 10]) -> usize
    requires { Room words.old work.old.now }
    ensures { let joined = joint texts.now.library.now texts.now.text.now in
        let k = known_of words.old in
        let depth = get_or words.old 7 0 in
        let o = term_at joined k depth (get_or words.old 5 0) (get_or words.old 6 0) work.old.now in
        Reached o k depth work.old result words.new work.new }
{
    type_deep(texts, work, words)
}

// The term behind the row. One with an operator in front may be there only if the row has some: all that a word tells of.
#[cycle(typing)]
fn type_primary(
    texts: &Texts,
    work: &mut &mut [u32],
    words: &mut [usize; 10],
    row: &[usize; 3],
    sorts: &mut [u32; 9],
) -> usize
    requires { Room words.old work.old.now × (sorts.old ≡ no_sorts) × Ended (known_of words.old) (get_or words.old 7 0) row.now work.old.now }
    ensures { let joined = joint texts.now.library.now texts.now.text.now in
        let k = known_of words.old in
        let depth = get_or words.old 7 0 in
        let o = term_at joined k depth (get_or row.now 0 0) (get_or row.now 1 0) work.old.now in
        Reached o k depth work.old result words.new work.new }
{
    if words[7] == 0 {
        return 0;
    }
    let t = words[0];
    let i = row[0];
    let q = row[1];
    if i < t {
        if q < work.len() {
            let role = role_in(*work, t, i);
            if role == roles::ALONE {
                return type_leaf(texts, work, words, row, sorts);
            }
            if role == roles::HEAD {
                move_to(words, i + 1, q + 1);
                return type_args(texts, work, words, row, sorts);
            }
            if 1 < row[2] {
                move_to(words, i, q);
                return type_onward(texts, work, words);
            }
            return 0;
        }
        return 0;
    }
    0
}

// The term at the place, down to a depth; its nodes are written from the second place on. An operator stands before its first operand, so a loop
// goes over a row of them and another one back: a level is a pair of brackets or a second operand. The sorts are lent to both, so that it has them once.
#[cycle(typing)]
fn type_deep(texts: &Texts, work: &mut &mut [u32], words: &mut [usize; 10]) -> usize
    requires { Room words.old work.old.now }
    ensures { let joined = joint texts.now.library.now texts.now.text.now in
        let k = known_of words.old in
        let depth = get_or words.old 7 0 in
        let o = term_at joined k depth (get_or words.old 5 0) (get_or words.old 6 0) work.old.now in
        Reached o k depth work.old result words.new work.new }
{
    let i = words[5];
    let q = words[6];
    let mut row = operators_from(*work, words, i, q);
    let mut sorts = [0; 9];
    let first = type_primary(texts, work, words, &row, &mut sorts);
    if first == 0 {
        return 0;
    }
    type_back(texts, work, words, &mut row, &mut sorts, first)
}

// The same for the slice itself, which is lent on by one reference. The borrow checker covers that where the slice is moved, so it is moved, and handed
// back: by that the caller knows what became of it.
fn type_lent<'a>(
    library: &[u8],
    text: &[u8],
    work: &'a mut [u32],
    words: &mut [usize; 10],
    sort: &mut usize,
) -> &'a mut [u32]
    requires { Room words.old work.old }
    ensures { let joined = joint library.now text.now in
        let k = known_of words.old in
        let depth = get_or words.old 7 0 in
        let o = term_at joined k depth (get_or words.old 5 0) (get_or words.old 6 0) work.old in
        Reached o k depth work.entry sort.new words.new result }
{
    let texts = Texts { library, text };
    let mut lent = work;
    *sort = type_deep(&texts, &mut lent, words);
    let back = lent;
    back
}

// The term at i, down to a depth; its nodes are written from q on.
pub fn type_term(
    library: &[u8],
    text: &[u8],
    work: &mut [u32],
    k: Known,
    i: usize,
    q: usize,
    depth: usize,
) -> Option<Sorted>
    requires { (k.tape ≤ length work.old) × (k.count ≤ 65536) × (k.hidden ≤ 65536) }
    ensures { out result work.new ≡ term_at (joint library.now text.now) k depth i q work.old }
{
    let mut words = known_words(k, i, q, depth);
    let mut sort: usize = 0;
    let _back = type_lent(library, text, work, &mut words, &mut sort);
    if sort == 0 {
        return None;
    }
    Some(Sorted {
        sort: (sort - 1) as u32,
        next: words[5],
        free: words[6],
    })
}
