// Values laid at the start of a longer slice, whose rest is one value.
ghost use Rattle.std.specs.Prelude.{◌≡◌, ◌≤◌, length, get_or};
ghost use Rattle.translate.specs.Translated.{laid};

// The value at the place, and the other past the end.
fn value_at<T: Copy>(from: &[T], i: usize, rest: T) -> T
    ensures { result ≡ get_or from.now i rest }
{
    if i < from.len() { from[i] } else { rest }
}

// The values come first, and the rest follows.
pub fn lay<T: Copy>(from: &[T], rest: T, to: &mut [T])
    requires { length from.now ≤ length to.old }
    ensures { to.new ≡ laid rest (length to.old) from.now }
{
    for i in 0..to.len() {
        to[i] = value_at(from, i, rest);
    }
}
