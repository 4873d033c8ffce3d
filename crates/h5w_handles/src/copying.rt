//! Values as numbers of 64 bits.
ghost use Rattle.std.specs.Prelude.{◌≡◌, ◌++◌, drop, length, take};
ghost use Rattle.h5w_handles.specs.Copies.{front};

/// A number of 64 bits.
pub trait Narrow: Copy {
    ghost use Rattle.std.specs.Prelude.{ℤ, Option};

    /// The number that a value is, where it is one.
    ghost narrowed: { ℤ → Option Self };

    fn narrow(value: i128) -> Option<Self>
        ensures { result ≡ narrowed value };
}

impl Narrow for i64 {
    ghost use Rattle.h5w_handles.specs.Copies.{as_signed};

    ghost narrowed = { as_signed };

    fn narrow(value: i128) -> Option<i64> {
        if value < i128::from(i64::MIN) || i128::from(i64::MAX) < value {
            return None;
        }
        Some(value as i64)
    }
}

impl Narrow for u64 {
    ghost use Rattle.h5w_handles.specs.Copies.{as_unsigned};

    ghost narrowed = { as_unsigned };

    fn narrow(value: i128) -> Option<u64> {
        if value < 0 || i128::from(u64::MAX) < value {
            return None;
        }
        Some(value as u64)
    }
}

/// Puts as many values at the front of `out` as there is room for, up to the first that is no such number, and answers how many.
pub fn copy<T: Narrow>(values: &[i128], out: &mut [T]) -> usize
    ensures copied { out.new ≡ front T.narrowed (take (length out.old) values.now) ++ drop result out.old }
    ensures count { result ≡ length (front T.narrowed (take (length out.old) values.now)) }
{
    let end = values.len().min(out.len());
    for k in 0..end {
        let Some(number) = T::narrow(values[k]) else {
            return k;
        };
        out[k] = number;
    }
    end
}
