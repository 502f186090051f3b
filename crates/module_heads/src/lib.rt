// The heads of a tape: where its modules begin, in text order.
#![tactic(auto)]

ghost use Rattle.std.specs.Prelude.{◌≡◌, length};
ghost use Rattle.modules.specs.Modules.{is_module, HeadsOf, heads_in};

use form_rows::entries::role_at;
use modules::{COUNT, Heads};
use tape::roles;

fn is_module(role: u32) -> bool
    ensures { result ≡ is_module role }
{
    role == roles::MODULE
}

// The heads of the modules among the first n entries, up to 64.
pub fn find_heads(tape: &[u32], n: u32, h: &mut Heads)
    requires { length h.old ≡ 66 }
    ensures { HeadsOf tape.now n (heads_in h.new) }
{
    let mut count: u32 = 0;
    for j in 0..n {
        if is_module(role_at(tape, j as usize)) {
            if 64 <= count {
                h[64] = n;
                h[COUNT] = 64;
                return;
            }
            h[count as usize] = j;
            count += 1;
        }
    }
    h[count as usize] = n;
    h[COUNT] = count;
}
