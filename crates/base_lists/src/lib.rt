// What several crates do with a list of numbers: fill it, copy it, and use up room along it.
#![tactic(auto)]

ghost use Rattle.std.specs.Prelude.{◌≡◌, true, ℕ, ◌+◌, ◌≤◌, ◌<◌, length};
ghost use Rattle.base_sums.specs.At.{at};
ghost use Rattle.base_sums.specs.Between.{between};
ghost use Rattle.base_sums.specs.Filled.{Filled};

// Each of the first places gets its own number.
pub fn by_number(count: usize, list: &mut [usize])
    requires { count ≤ length list.old }
    ensures { Filled (λ i. i) count list.new }
{
    for i in 0..count {
        list[i] = i;
    }
}

// The first numbers of one list in place of those of another. (The library's copy, with its promise said by `Filled`; an edit holds it.)
pub fn copy(count: usize, list: &[usize], other: &mut [usize])
    requires { (count ≤ length list.now) × (count ≤ length other.old) }
    ensures { Filled (at list.now) count other.new }
{
    other[..count].copy_from_slice(&list[..count]);
}

// Whether every place from a to b - 1 has room.
pub fn room_between(room: &[usize], a: usize, b: usize) -> bool
    requires { b ≤ length room.now }
    ensures { result ≡ true → (j : ℕ) → a ≤ j → j < b → 0 < at room.now j }
{
    for j in a..b {
        if room[j] == 0 {
            return false;
        }
    }
    true
}

// Takes one of room at every place from a to b - 1.
pub fn take_room(room: &mut [usize], a: usize, b: usize)
    requires b_in_bounds { b ≤ length room.old }
    requires by_index { (j : ℕ) → a ≤ j → j < b → 0 < at room.old j }
    ensures { (j : ℕ) → at room.new j + between a b j ≡ at room.old j }
{
    for j in a..b {
        room[j] -= 1;
    }
}
