// Values handed over in lent slices, where there is room: a slice that is too short is no fault, and what has no place there is left out.
#![tactic(auto)]

ghost use Rattle.std.specs.Prelude.{◌≡◌, [], ◌∷◌, ◌≤◌, set};
ghost use Rattle.values_c.specs.Values.{laid, bit_of};

// One value, where there is room.
pub fn put_value(values: &mut [usize], i: usize, value: usize)
    ensures { values.new ≡ set values.old i value }
{
    if i < values.len() {
        values[i] = value;
    }
}

// Three values, from place i on.
pub fn put_three(values: &mut [usize], i: usize, a: usize, b: usize, c: usize)
    requires { i ≤ 3 }
    ensures { values.new ≡ laid i (a ∷ b ∷ c ∷ []) values.old }
{
    let j = i + 1;
    let k = j + 1;
    put_value(values, i, a);
    put_value(values, j, b);
    put_value(values, k, c);
}

// 1 for yes, 0 for no.
pub fn bit(b: bool) -> usize
    ensures { result ≡ bit_of b }
{
    usize::from(b)
}
