// Values that stand under numbers.
ghost use Rattle.std.specs.Option.{UnwrapsOrElse};
ghost use Rattle.std.specs.Prelude.{◌≡◌, slice_get, slice_set};

// What stands under the number; past the end the default.
pub(crate) fn at<T: Copy + Default>(all: &[T], number: u8) -> T
    ensures { UnwrapsOrElse (slice_get all.now number) T.is_default result }
{
    all.get(usize::from(number)).copied().unwrap_or_default()
}

// The value is put under the number; past the end there is none.
// By an index, since a proof does not know what is written through `get_mut`.
pub(crate) fn put<T: Copy>(all: &mut [T], number: u8, value: T)
    ensures { all.new ≡ slice_set all.old number value }
{
    let at = usize::from(number);
    if at < all.len() {
        all[at] = value;
    }
}
