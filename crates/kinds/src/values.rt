// The ranges of the numbers k and m of each kind, and whether a rule allows two values. Sums are taken
// wide, so that none wraps.
ghost use Rattle.std.specs.Prelude.{◌≡◌, pos, ◌+ℤ◌, ◌-ℤ◌, ◌≤ℤ◌, unsigned_abs};
ghost use Rattle.kinds.specs.Kinds.{after, allowed_by, in_range, step, wide};
ghost use Rattle.std.specs.Int.{int_div_euclid};

use crate::kind::Kind;

impl Kind {
    // Whether k and m lie in the ranges of the kind; m is not read where the kind has none.
    // Kept: two numbers and not a struct, as they come so in a record, with a number for the kind.
    pub fn takes(self, k: i32, m: i32) -> bool
        ensures { result ≡ in_range self k m }
    {
        // Kept: a match with guards, the form that the project asks for.
        match self {
            Kind::Apart | Kind::Exact if (0..=2_000_000).contains(&k) => true,
            Kind::After if is_wide(k) => true,
            Kind::Either if is_wide(k) && is_wide(m) => true,
            Kind::Step if is_wide(k) && (1..=1_000).contains(&m) => true,
            _ => false,
        }
    }

    // Whether a rule of this kind allows the value x on its first line with y on its second; a step by
    // m below 1 allows nothing.
    pub fn allows(self, k: i32, m: i32, x: i32, y: i32) -> bool
        ensures { result ≡ allowed_by self k m x y }
    {
        match self {
            Kind::Apart => i64::from(k) < distance(x, y),
            Kind::Exact => distance(x, y) == i64::from(k),
            Kind::After => is_after(k, x, y),
            Kind::Either => is_after(k, x, y) || is_after(m, y, x),
            Kind::Step => is_step(k, m, x, y),
        }
    }
}

fn is_wide(z: i32) -> bool
    ensures { result ≡ wide z }
{
    (-2_000_000..=2_000_000).contains(&z)
}

fn sum(x: i32, y: i32) -> i64
    ensures { result ≡ x +ℤ y }
{
    i64::from(x) + i64::from(y)
}

fn difference(x: i32, y: i32) -> i64
    ensures { result ≡ x -ℤ y }
{
    i64::from(x) - i64::from(y)
}

fn distance(x: i32, y: i32) -> i64
    ensures { result ≡ pos (unsigned_abs (x -ℤ y)) }
{
    i64::from(x.abs_diff(y))
}

// The difference divided by m and rounded down.
fn quotient(m: i32, x: i32, y: i32) -> i64
    requires { pos 1 ≤ℤ m }
    ensures { result ≡ int_div_euclid (x -ℤ y) m }
{
    difference(x, y).div_euclid(i64::from(m))
}

fn is_after(k: i32, x: i32, y: i32) -> bool
    ensures { result ≡ after k x y }
{
    sum(x, k) <= i64::from(y)
}

fn is_step(k: i32, m: i32, x: i32, y: i32) -> bool
    ensures { result ≡ step k m x y }
{
    m >= 1 && quotient(m, x, y) == i64::from(k)
}
