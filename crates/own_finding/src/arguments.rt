// A name and its arguments: the node with so many of them, how many there may be, and where they end.
ghost use Rattle.std.specs.Prelude.{◌≡◌, ◌+◌, ◌^◌, ◌≤◌, ◌<◌};
ghost use Rattle.own_finding.specs.Arguments.{node_word, arguments_of, closers_of, ends_at};

use super::Known;
use form_rows::entries::role_at;
use tape::roles;

// The node of a row and a number of arguments.
pub fn node_word(k: Known, row: u32, n: usize) -> u32
    requires { (row < 65536) × (k.hidden ≤ 65536) × (n ≤ 9) }
    ensures { result ≡ node_word k row n }
{
    let visible = k.visible;
    let hidden = k.hidden;
    if row < visible {
        return row * 32 + n as u32;
    }
    (hidden + (row - visible)) * 32 + 16 + n as u32
}

// How many arguments a name of the role may have, at the most; an operator has no fewer.
pub fn arguments_of(role: u32) -> usize
    ensures { result ≡ arguments_of role }
{
    if role == roles::HEAD {
        return 9;
    }
    if role == roles::PREFIX {
        return 1;
    }
    if role == roles::INFIX {
        return 2;
    }
    0
}

// How many entries close them: none where they are counted.
pub fn closers_of(role: u32) -> usize
    ensures { result ≡ closers_of role }
{
    if role == roles::HEAD {
        return 1;
    }
    0
}

// Do the arguments end before i, of which `left` more may come?
pub fn ends_at(tape: &[u32], closers: usize, left: usize, i: usize) -> bool
    ensures { result ≡ ends_at tape.now closers left i }
{
    if closers == 0 {
        return left == 0;
    }
    role_at(tape, i) == roles::CLOSE
}

// The entry behind those that close the arguments, from i on.
pub fn behind(i: usize, closers: usize) -> usize
    requires { (closers ≡ 0 → ⊥) → i + closers < 2 ^ 64 }
    ensures { result ≡ i + closers }
{
    if closers == 0 {
        return i;
    }
    i + closers
}
