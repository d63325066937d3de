// Lent slices, written from a place on.
ghost use Rattle.std.specs.Prelude.{◌≡◌, ◌+◌, ◌≤◌, length};
ghost use Rattle.std.proofs.lemmas.List.Edits.{sets};

pub(crate) fn put<T: Copy>(out: &mut [T], at: usize, values: &[T])
    requires { at + length values.now ≤ length out.old }
    ensures { out.new ≡ sets out.old at values.now }
{
    out[at..at + values.len()].copy_from_slice(values);
}
