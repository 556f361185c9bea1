// Writing at the count.
ghost use Rattle.std.specs.Prelude.{◌≡◌, [], ◌∷◌};
ghost use Rattle.cursor.specs.Layout.{write};

// Writes the item at the count, if there is a place.
// Stays: by index, since what `get_mut` lends says nothing of the elements afterwards.
pub fn put<T: Copy>(out: &mut [T], count: u16, item: T)
    ensures { out.new ≡ write out.old count (item ∷ []) }
{
    let at = usize::from(count);
    if at < out.len() {
        out[at] = item;
    }
}
