// The lent working memory: how much of it there is at the least, and how it is set to zero.
#![tactic(auto)]

ghost use Rattle.std.specs.Prelude.{◌≡◌};
ghost use Rattle.meaning.specs.Numbers.{memory_size};
ghost use Rattle.meaning.specs.Answer.{memory_after};

// How many words the working memory has at the least.
pub fn memory_size() -> usize
    ensures { result ≡ memory_size }
{
    1048576
}

// Every word to 0, whatever the memory's length.
pub fn zero_all(work: &mut [u32])
    ensures { work.new ≡ memory_after work.old }
{
    work.fill(0);
}
