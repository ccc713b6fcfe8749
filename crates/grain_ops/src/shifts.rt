//! Shifts of integers by any count.

ghost use Rattle.std.specs.Prelude.{◌≡◌};
ghost use Rattle.grain_ops.specs.Shifts.{left_by, right_by, shifted_left, shifted_right};

// To the left, or to the right by a negative count.
pub(crate) fn shifted_left(x: i64, count: i64) -> i64
    ensures { result ≡ shifted_left x count }
{
    if count < 0 {
        right_by(x, count.unsigned_abs())
    } else {
        left_by(x, count.unsigned_abs())
    }
}

// To the right, or to the left by a negative count.
pub(crate) fn shifted_right(x: i64, count: i64) -> i64
    ensures { result ≡ shifted_right x count }
{
    if count < 0 {
        left_by(x, count.unsigned_abs())
    } else {
        right_by(x, count.unsigned_abs())
    }
}

// To the left, where bits past the highest are lost.
fn left_by(x: i64, count: u64) -> i64
    ensures { result ≡ left_by x count }
{
    if count < 64 { x << count } else { 0 }
}

// To the right, where the sign stays.
fn right_by(x: i64, count: u64) -> i64
    ensures { result ≡ right_by x count }
{
    if count < 64 {
        x >> count
    } else if x < 0 {
        -1
    } else {
        0
    }
}
